// The line that a refusal speaks of.
ghost use Rattle.std.specs.Prelude.{◌≡◌};
ghost use Rattle.std.specs.Option.{option_map};
ghost use Rattle.sheets.specs.Lines.{line_at, line_on};

use crate::faults::{Fault, Sheet};
use crate::lines::Lines;

// The texts of the two sheets that a caller brings.
#[derive(Clone, Copy)]
pub struct Sheets<'a> {
    pub depot: &'a [u8],
    pub plan: &'a [u8],
}

// The bytes of the line with a number, counted from 1.
fn line_at<'a>(sheet: &'a [u8], number: usize) -> Option<&'a [u8]>
    ensures { option_map (λ x. x.now) result ≡ line_at sheet.now number }
{
    let index = number.checked_sub(1)?;
    Lines::of(sheet).nth(index).map(|line| line.text)
}

impl<'a> Sheets<'a> {
    // The line that a refusal speaks of, as a part of the sheet it came from; it goes by the fault's sheet and line alone.
    pub fn line(&self, fault: &Fault) -> Option<&'a [u8]>
        ensures { option_map (λ x. x.now) result ≡ line_on self.now.depot.now self.now.plan.now fault.now.sheet fault.now.line }
    {
        match fault.sheet? {
            Sheet::Depot => line_at(self.depot, fault.line),
            Sheet::Plan => line_at(self.plan, fault.line),
        }
    }
}
