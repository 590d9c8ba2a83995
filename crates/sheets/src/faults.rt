// A refusal with the place that it speaks of.
ghost use Rattle.std.specs.Prelude.{◌≡◌, Some};
ghost use Rattle.sheets.specs.Refusals.{unplaced};

use crate::refusals::Refusal;

// The two sheets that a caller brings.
#[derive(Clone, Copy)]
pub enum Sheet {
    Depot,
    Plan,
}

// A refusal, the sheet it speaks of, if any, and the line, which is 0 where it speaks of none, as a report prints it.
#[derive(Clone, Copy)]
pub struct Fault {
    pub sheet: Option<Sheet>,
    pub line: usize,
    pub refusal: Refusal,
}

impl Fault {
    // A refusal that speaks of a sheet, with the line at which it is told: the whole sheet is told at line 0 where it is
    // too large.
    pub fn on(sheet: Sheet, line: usize, refusal: Refusal) -> Fault
        ensures sheet { result.sheet ≡ Some sheet }
        ensures line { result.line ≡ line }
        ensures refusal { result.refusal ≡ refusal }
    {
        Fault {
            sheet: Some(sheet),
            line,
            refusal,
        }
    }

    // A refusal that speaks of no sheet.
    pub fn unplaced(refusal: Refusal) -> Fault
        ensures { result ≡ unplaced refusal }
    {
        Fault {
            sheet: None,
            line: 0,
            refusal,
        }
    }
}
