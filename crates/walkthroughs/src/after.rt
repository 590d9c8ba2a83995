// The facts after a set of a step's moves, from what each of them does.
ghost use Rattle.std.specs.Prelude.{◌≡◌, ℕ, ◌||◌};
ghost use Rattle.formulas.specs.Truth.{stands_in};
ghost use Rattle.walkthroughs.specs.Outcomes.{Together, left_by, picked};

use crate::firing::Outcome;
use crate::marks::Row;
use crate::sets::in_set;
use std::array;

// The marks of two rows in one.
fn joined(row: &Row, more: &Row) -> Row
    ensures { (f : ℕ) → stands_in result f ≡ (stands_in row.now f || stands_in more.now f) }
{
    array::from_fn(|i| row[i] | more[i])
}

// What the moves at the places of a set do together.
fn unite(outcomes: &[Outcome], set: usize) -> Outcome
    ensures { Together (picked set outcomes.now) result }
{
    let mut all = Outcome::nothing();
    for (i, outcome) in outcomes.iter().enumerate() {
        if in_set(set, i + 1) {
            all.adds = joined(&all.adds, &outcome.adds);
            all.removes = joined(&all.removes, &outcome.removes);
        }
    }
    all
}

// The facts that an outcome leaves of those at the start.
fn left_by(start: &Row, outcome: &Outcome) -> Row
    ensures { stands_in result ≡ left_by start.now outcome.now }
{
    array::from_fn(|i| outcome.adds[i] | (start[i] & !outcome.removes[i]))
}

// The facts after the moves at the places of a set, judged at the start.
pub(crate) fn after_set(start: &Row, outcomes: &[Outcome], set: usize) -> Row
    ensures { (o : Outcome) × Together (picked set outcomes.now) o × (stands_in result ≡ left_by start.now o) }
{
    left_by(start, &unite(outcomes, set))
}
