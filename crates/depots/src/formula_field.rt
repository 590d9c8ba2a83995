// How a field with a formula is read.
ghost use Rattle.std.specs.Prelude.{◌≡◌, ◌+◌, ◌<◌, IfOk, MatchResult};
ghost use Rattle.sheets.specs.declared.refusals.Refusal.TheVariants.{TableFull};
ghost use Rattle.depots.specs.FormulaFields.{AddedTo, FormulaRead};
ghost use Rattle.facts.specs.Numbering.{number_under};

use crate::troubles::Trouble;
use facts::kinds::Kind;
use facts::listed_facts::ListedFacts;
use formulas::resolve::Unresolved;
use formulas::tree::{Formula, Unread};
use formulas::{reading, resolve, size};
use sheets::refusals::Refusal;
use std::alloc::{AllocError, Global};

// A formula over the numbers of listed facts, with its size.
#[derive(Drop)]
pub struct SizedFormula {
    pub(crate) formula: Formula<usize>,
    pub(crate) size: usize,
}

// A formula that a line adds, and how large all formulas are with it: a type of its own, so that a size is not taken for a
// total.
#[derive(Drop)]
pub struct NewFormula {
    pub(crate) formula: Formula<usize>,
    pub(crate) total: usize,
}

// The largest that the formulas of a sheet may be together.
const MOST_SIZE: usize = 1024;

impl SizedFormula {
    // The formula added to others that are so large together, unless they become too large.
    pub(crate) fn added_to(self, sum: usize) -> Result<NewFormula, Refusal>
        ensures { MatchResult result (AddedTo sum self) (λ w. (w ≡ TableFull) × (1024 < sum + self.size)) }
    {
        let SizedFormula { formula, size } = self;
        let total = sum
            .checked_add(size)
            .filter(|total| *total <= MOST_SIZE)
            .ok_or(Refusal::TableFull)?;
        Ok(NewFormula { formula, total })
    }
}

// What a field with a formula holds, or what is wrong with it. Memory can be wanting.
pub(crate) fn formula_field<K: Kind>(
    heap: Global,
    listed: &ListedFacts<K>,
    text: &[u8],
) -> Result<Result<SizedFormula, Trouble>, AllocError>
    ensures { IfOk result (FormulaRead (number_under K.Kind listed.now) text.now) }
{
    // No `?` here: of each error one case ends the line, and the others are what is wrong with this field.
    let read = match reading::read(heap, text) {
        Ok(read) => read,
        Err(Unread::NotItsForm) => return Ok(Err(Trouble::NotItsForm)),
        Err(Unread::NoMemory) => return Err(AllocError),
    };
    match resolve::resolve(heap, listed, &read) {
        Ok(formula) => Ok(Ok(SizedFormula {
            formula,
            size: size::size(&read),
        })),
        Err(Unresolved::NoFact(why)) => Ok(Err(why.into())),
        Err(Unresolved::NoMemory) => Err(AllocError),
    }
}
