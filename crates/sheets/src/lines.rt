// The lines of a sheet, one after the other. Only `first_line` and specs/Lines know what ends a line.
ghost use Rattle.std.specs.Prelude.{◌≡◌, ◌<◌, [], ◌∷◌, length, MatchOption};
ghost use Rattle.std.specs.Iterator.{YieldsFirstBy, item_count};
ghost use Rattle.sheets.specs.Lines.{lines_of, shown};
ghost use Rattle.sheets.specs.Rest.{lines_left};

use crate::pieces;

// A line lent by its sheet: its bytes without what ends it, and whether its end is there.
#[derive(Clone, Copy)]
pub struct Line<'a> {
    pub text: &'a [u8],
    pub ended: bool,
}

// The lines that are left of a sheet.
#[derive(Clone, Copy)]
pub struct Lines<'a> {
    rest: &'a [u8],
}

const LINE_END: u8 = b'\n';

// The first line of a sheet and what follows it, or none where the sheet has no byte.
pub fn first_line<'a>(sheet: &'a [u8]) -> Option<(Line<'a>, &'a [u8])>
    ensures { MatchOption result (lines_of sheet.now ≡ []) (λ x. (lines_of sheet.now ≡ shown x.0 ∷ lines_of x.1.now) × (length x.1.now < length sheet.now)) }
{
    if sheet.is_empty() {
        return None;
    }
    let (text, rest) = pieces::cut(sheet, LINE_END);
    let line = Line {
        text,
        ended: rest.is_some(),
    };
    Some((line, rest.unwrap_or(&[])))
}

impl<'a> Iterator for Lines<'a> {
    type Item = Line<'a>;

    ghost next_gives = { YieldsFirstBy shown lines_left };

    ghost remaining = { item_count lines_left };

    fn next(&mut self) -> Option<Line<'a>> {
        let (line, rest) = first_line(self.rest)?;
        self.rest = rest;
        Some(line)
    }
}

impl<'a> Lines<'a> {
    // All lines of a sheet.
    pub fn of(sheet: &'a [u8]) -> Lines<'a>
        ensures { lines_left result ≡ lines_of sheet.now }
    {
        Lines { rest: sheet }
    }
}
