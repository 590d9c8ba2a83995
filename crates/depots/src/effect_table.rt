// The table of effect records, lent and filled in place.
ghost use Rattle.std.specs.Prelude.{◌≡◌, ◌+◌, ◌≤◌, [], ◌∷◌, ◌++◌, length, take, MatchResult};

use crate::depot::Effect;
use crate::fact_list::FactList;
use std::alloc::AllocError;

// The most effects of a move.
pub(crate) const MOST_OF_MOVE: usize = 16;

// The most effects of all moves together.
pub(crate) const MOST_EFFECTS: usize = 256;

impl Effect {
    // What stands in a place of the table that is not filled.
    pub(crate) fn none() -> Effect {
        Effect {
            condition: 0,
            settings: FactList::none(),
            strikes: FactList::none(),
        }
    }
}

// Fills the place after so many effects, and tells how many there are then. A table made by `begin` has a place for each
// effect that a sheet may have; that of an empty depot has none, which is told as want of memory.
pub(crate) fn fill(
    effects: &mut [Effect],
    count: usize,
    effect: Effect,
) -> Result<usize, AllocError>
    ensures { MatchResult result (λ n. (n ≡ count + 1) × (take n effects.new ≡ take count effects.old ++ effect ∷ []) × (length effects.new ≡ length effects.old)) (λ _. (length effects.old ≤ count) × (effects.new ≡ effects.old)) }
{
    // No `get_mut`, since of a slice that was written through it a proof knows no element.
    if count >= effects.len() {
        return Err(AllocError);
    }
    effects[count] = effect;
    Ok(count + 1)
}
