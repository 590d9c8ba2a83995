// Rows over the sets of a step's places: of which of them something is so.
ghost use Rattle.std.specs.Prelude.{◌≡◌, ℕ, ◌<◌, true, false, cond, not, ◌&&◌, ◌||◌};
ghost use Rattle.walkthroughs.specs.SetRows.{has};
ghost use Rattle.walkthroughs.specs.Sets.{in_set};

use crate::sets::in_set;
use std::array;

// Of which of the 256 sets of eight places something is so: a digit for each set, in four words of 64. What is so of all sets
// is told at once, since to go over the sets one by one takes many times as long.
pub(crate) type SetRow = [usize; 4];

// No set.
pub(crate) fn no_set() -> SetRow
    ensures { (set : ℕ) → set < 256 → has result set ≡ false }
{
    [0; 4]
}

// Every set.
pub(crate) fn every_set() -> SetRow
    ensures { (set : ℕ) → set < 256 → has result set ≡ true }
{
    [usize::MAX; 4]
}

// The sets that have a place. The first six places are told within a word, and the other two by the word.
pub(crate) fn sets_with(place: usize) -> SetRow
    ensures { (set : ℕ) → set < 256 → has result set ≡ in_set set place }
{
    match place {
        1 => [0xAAAA_AAAA_AAAA_AAAA; 4],
        2 => [0xCCCC_CCCC_CCCC_CCCC; 4],
        3 => [0xF0F0_F0F0_F0F0_F0F0; 4],
        4 => [0xFF00_FF00_FF00_FF00; 4],
        5 => [0xFFFF_0000_FFFF_0000; 4],
        6 => [0xFFFF_FFFF_0000_0000; 4],
        7 => [0, usize::MAX, 0, usize::MAX],
        8 => [0, 0, usize::MAX, usize::MAX],
        _ => [0; 4],
    }
}

// The sets of two rows.
pub(crate) fn either(row: &SetRow, more: &SetRow) -> SetRow
    ensures { (set : ℕ) → set < 256 → has result set ≡ (has row.now set || has more.now set) }
{
    array::from_fn(|i| row[i] | more[i])
}

// The sets that are in both of two rows.
pub(crate) fn both(row: &SetRow, more: &SetRow) -> SetRow
    ensures { (set : ℕ) → set < 256 → has result set ≡ (has row.now set && has more.now set) }
{
    array::from_fn(|i| row[i] & more[i])
}

// The sets that are not in a row.
pub(crate) fn others(row: &SetRow) -> SetRow
    ensures { (set : ℕ) → set < 256 → has result set ≡ not (has row.now set) }
{
    array::from_fn(|i| !row[i])
}

// The sets of a row, and those of another if it is asked.
pub(crate) fn with_more(row: &SetRow, more: &SetRow, asked: bool) -> SetRow
    ensures { (set : ℕ) → set < 256 → has result set ≡ (has row.now set || (asked && has more.now set)) }
{
    if asked { either(row, more) } else { *row }
}

// The sets of which a row tells otherwise than a mark.
pub(crate) fn unlike(row: &SetRow, mark: bool) -> SetRow
    ensures { (set : ℕ) → set < 256 → has result set ≡ cond mark (not (has row.now set)) (has row.now set) }
{
    if mark { others(row) } else { *row }
}

// Whether a row has a set.
pub(crate) fn has(row: &SetRow, set: usize) -> bool
    ensures { result ≡ has row.now set }
{
    row.get(set / 64)
        .is_some_and(|word| in_set(*word, set % 64 + 1))
}
