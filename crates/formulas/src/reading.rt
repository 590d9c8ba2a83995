// A text read as a formula.
ghost use Rattle.std.specs.Prelude.{◌≤◌, length, IfOk};
ghost use Rattle.formulas.specs.Reading.{Answers};
ghost use Rattle.formulas.specs.Shapes.{texted};
ghost use Rattle.formulas.specs.Spelling.{size_of};

use crate::reader;
use crate::tree::{Formula, Unread};
use std::alloc::Global;

// The deepest that a formula may be.
const MOST_DEPTH: usize = 8;

// The formula that a text is. Its facts are parts of the text; whether they are facts of a kind is not asked here.
pub fn read<'a>(heap: Global, text: &'a [u8]) -> Result<Formula<&'a [u8]>, Unread>
    ensures answer { Answers 8 text.now result }
    ensures short { IfOk result (λ t. size_of (texted t) ≤ length text.now) }
{
    let (formula, rest) = reader::formula(heap, text, MOST_DEPTH)?;
    if rest.is_empty() {
        Ok(formula)
    } else {
        Err(Unread::NotItsForm)
    }
}
