// What is so after every set of a step's moves, told at once.
ghost use Rattle.std.specs.Prelude.{◌≡◌, ℕ, ◌<◌};
ghost use Rattle.formulas.specs.Formulas.{holds};
ghost use Rattle.formulas.specs.Shapes.{numbers};
ghost use Rattle.walkthroughs.specs.Outcomes.{left_of};
ghost use Rattle.walkthroughs.specs.SetRows.{has};

use crate::firing::Outcome;
use crate::marks::Row;
use crate::set_rows::{SetRow, both, either, every_set, no_set, others, sets_with, with_more};
use formulas::tree::Formula;
use formulas::truth::stands;

// The sets after which a fact stands.
fn standing(start: &Row, outcomes: &[Outcome], fact: usize) -> SetRow
    ensures { (set : ℕ) → set < 256 → has result set ≡ left_of start.now outcomes.now set fact }
{
    let mut added = no_set();
    let mut removed = no_set();
    for (i, outcome) in outcomes.iter().enumerate() {
        let sets = sets_with(i + 1);
        added = with_more(&added, &sets, stands(&outcome.adds, fact));
        removed = with_more(&removed, &sets, stands(&outcome.removes, fact));
    }
    with_more(&added, &others(&removed), stands(start, fact))
}

// The sets after which a formula is true.
pub(crate) fn true_after(formula: &Formula<usize>, start: &Row, outcomes: &[Outcome]) -> SetRow
    ensures { (set : ℕ) → set < 256 → has result set ≡ holds (left_of start.now outcomes.now set) (numbers formula.now) }
{
    match formula {
        Formula::Fact(number) => standing(start, outcomes, *number),
        Formula::Not(inner) => others(&true_after(inner, start, outcomes)),
        Formula::All(inner) => {
            let mut sets = every_set();
            for one in inner.iter() {
                sets = both(&sets, &true_after(one, start, outcomes));
            }
            sets
        }
    }
}
