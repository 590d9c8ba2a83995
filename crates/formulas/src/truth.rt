// Whether a formula is true of the facts that stand.
ghost use Rattle.std.specs.Prelude.{◌≡◌};
ghost use Rattle.formulas.specs.Formulas.{holds};
ghost use Rattle.formulas.specs.Shapes.{numbers};
ghost use Rattle.formulas.specs.Truth.{stands_in};

use crate::tree::Formula;
use sheets::numbered::entry_at;

// Whether the fact of a number, counted from 1, stands. One that has no mark does not.
pub fn stands(standing: &[bool], number: usize) -> bool
    ensures { result ≡ stands_in standing.now number }
{
    entry_at(standing, number).is_some_and(|mark| *mark)
}

// Whether a formula over fact numbers is true, where the marks say which facts stand: a mark at index f - 1 is that of fact f.
pub fn truth(formula: &Formula<usize>, standing: &[bool]) -> bool
    ensures { result ≡ holds (stands_in standing.now) (numbers formula.now) }
{
    match formula {
        Formula::Fact(number) => stands(standing, *number),
        Formula::Not(inner) => !truth(inner, standing),
        // The closure says what it gives, since that is not inferred of one that calls this function again.
        Formula::All(inner) => inner.iter().all(
            |one|
                ensures { result ≡ holds (stands_in standing.entry.now) (numbers one.now) }
            { truth(one, standing) },
        ),
    }
}
