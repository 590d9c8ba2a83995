// What can be wrong with the fields of a line, and which of it is told.
ghost use Rattle.std.specs.Prelude.{◌≡◌, Bool, true, false, [], ◌∷◌, Some, Ok, Err};
ghost use Rattle.std.specs.Result.{MatchResult, result_err};
ghost use Rattle.depots.specs.Fields.{as_trouble};
ghost use Rattle.depots.specs.Troubles.{refusal_at, lower_of, LineFault, Placed};
ghost use Rattle.sheets.specs.Faults.{Lowest};
ghost use Rattle.sheets.specs.declared.refusals.Refusal.TheVariants.{TableFull};

use facts::names::NoFact;
use sheets::faults::{Fault, Sheet};
use sheets::refusals::Refusal;
use std::cmp;

// What is wrong with a field.
#[derive(Clone, Copy, Debug, PartialEq, Eq)]
pub enum Trouble {
    // it has not its form
    NotItsForm,
    // it names what is not listed
    NotListed,
    // it lists or starts something a second time, or has something twice
    Twice,
    // it lists a fact that is always true
    AlwaysTrue,
}

// Why a text is no fact, as a trouble with its field.
impl From<NoFact> for Trouble {
    ghost from_gives = { λ why t. t ≡ as_trouble why };

    fn from(why: NoFact) -> Trouble {
        match why {
            NoFact::NotItsForm => Trouble::NotItsForm,
            NoFact::NotListed => Trouble::NotListed,
        }
    }
}

impl Trouble {
    // The refusal of a line for what is wrong with one of its fields. The troubles are spelled out, since a refusal has a
    // case of its own for each reason that is numbered.
    fn at(self, field: usize) -> Refusal
        ensures { result ≡ refusal_at self field }
    {
        match self {
            Trouble::NotItsForm => Refusal::NotItsForm { field },
            Trouble::NotListed => Refusal::NotListed { field },
            Trouble::Twice => Refusal::Twice { field },
            Trouble::AlwaysTrue => Refusal::AlwaysTrue { field },
        }
    }
}

// The refusal of a line whose only field after its letter is in trouble, be its table full or not.
pub fn only(trouble: Trouble) -> Refusal
    ensures { (full : Bool) → Lowest (LineFault (Some trouble ∷ []) full) result }
{
    trouble.at(2)
}

// What was read of a field, or the refusal of its line for what is wrong with it.
pub fn at_field<A: Drop>(field: usize, read: Result<A, Trouble>) -> Result<A, Refusal>
    ensures { MatchResult read (λ x. result ≡ Ok x) (λ t. result ≡ Err (refusal_at t field)) }
{
    read.map_err(|trouble| trouble.at(field))
}

// What was read of a field and of those after it; else the refusal, or of two the lower.
pub fn both<A: Drop, B: Drop>(
    first: Result<A, Refusal>,
    rest: Result<B, Refusal>,
) -> Result<(A, B), Refusal>
    ensures { MatchResult result (λ x. (first ≡ Ok x.0) × (rest ≡ Ok x.1)) (λ w. Some w ≡ lower_of (result_err first) (result_err rest)) }
{
    match (first, rest) {
        (Ok(a), Ok(b)) => Ok((a, b)),
        // The one with the lower number is told, and of two with one number the first.
        (Err(a), Err(b)) => Err(cmp::min_by_key(a, b, |refusal| refusal.number())),
        (Err(refusal), Ok(_)) | (Ok(_), Err(refusal)) => Err(refusal),
    }
}

// The refusal of a line that takes a table over its limit. What is wrong with its fields is told before.
pub fn refuse_if_full(full: bool) -> Result<(), Refusal>
    ensures { MatchResult result (λ _. full ≡ false) (λ w. (w ≡ TableFull) × (full ≡ true)) }
{
    if full {
        Err(Refusal::TableFull)
    } else {
        Ok(())
    }
}

// A refusal with the sheet and the line at which it is told; that memory was wanting speaks of no sheet.
pub fn at_line(sheet: Sheet, line: usize, refusal: Refusal) -> Fault
    ensures { Placed sheet line refusal result }
{
    match refusal {
        Refusal::NoMemory => Fault::unplaced(refusal),
        _ => Fault::on(sheet, line, refusal),
    }
}
