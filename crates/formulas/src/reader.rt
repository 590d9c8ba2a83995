// The reader of formulas and that of bracket lists, which call each other as deep as they may.
ghost use Rattle.formulas.specs.Reading.{Formed, FormedOn};

use crate::marks;
use crate::tree::{Formula, Unread};
use std::alloc::Global;

// The fact that a text begins with, and what follows it.
fn fact<'a>(text: &'a [u8]) -> Result<(Formula<&'a [u8]>, &'a [u8]), Unread>
    ensures { Formed 0 text.now result }
{
    match text.split_at(marks::before_mark(text)) {
        ([], _) => Err(Unread::NotItsForm),
        (fact, rest) => Ok((Formula::Fact(fact), rest)),
    }
}

// The formula that a text begins with, if it is at most so deep, and what follows it.
#[cycle(brackets_formula)]
pub fn formula<'a>(
    heap: Global,
    text: &'a [u8],
    depth: usize,
) -> Result<(Formula<&'a [u8]>, &'a [u8]), Unread>
    ensures { Formed depth text.now result }
{
    if depth == 0 {
        return fact(text);
    }
    match text {
        [b'!', after @ ..] => {
            let (inner, rest) = formula(heap, after, depth - 1)?;
            Ok((Formula::Not(Box::new(heap, inner)?), rest))
        }
        [b'(', b')', rest @ ..] => Ok((Formula::All(Vec::new(heap)), rest)),
        [b'(', after @ ..] => {
            let (inner, rest) = brackets(heap, after, depth - 1)?;
            Ok((Formula::All(inner), rest))
        }
        _ => fact(text),
    }
}

// The formulas up to the bracket that closes, one at least, and what follows it.
#[cycle(brackets_formula)]
fn brackets<'a>(
    heap: Global,
    text: &'a [u8],
    depth: usize,
) -> Result<(Vec<Formula<&'a [u8]>>, &'a [u8]), Unread>
    ensures { FormedOn depth text.now result }
{
    let mut all = Vec::new(heap);
    let mut kept = true;
    let mut left = text;
    // A loop, since where the next formula begins is known only when one is read.
    loop {
        let (one, after) = formula(heap, left, depth)?;
        // Whether each so far found room. Want of it is told only of a whole row: one that breaks off has not its form.
        kept &= all.push(one).is_ok();
        match after {
            [b'&', next @ ..] => left = next,
            [b')', rest @ ..] if kept => return Ok((all, rest)),
            [b')', ..] => return Err(Unread::NoMemory),
            _ => return Err(Unread::NotItsForm),
        }
    }
}
