// Which sets of a step's places disturb a move outside them, told of all sets at once.
ghost use Rattle.std.specs.Prelude.{◌≡◌, ℕ, ◌<◌, not, ◌&&◌, length};
ghost use Rattle.walkthroughs.specs.Depots.{reads, truth_of};
ghost use Rattle.walkthroughs.specs.DisturbingSets.{disturbs, some_part_other};
ghost use Rattle.walkthroughs.specs.Moments.{at, depot_of};
ghost use Rattle.walkthroughs.specs.Outcomes.{AreOutcomes, left_of};
ghost use Rattle.walkthroughs.specs.SetRows.{has};
ghost use Rattle.walkthroughs.specs.Sets.{in_set};

use crate::firing::Outcome;
use crate::moment::Moment;
use crate::over_sets::true_after;
use crate::set_rows::{SetRow, both, either, every_set, no_set, others, sets_with, unlike};
use facts::kinds::Kind;

impl<K: Kind> Moment<'_, K> {
    // The sets after which the formula with a number is true; where none is listed, it is.
    fn formula_after(&self, outcomes: &[Outcome], number: usize) -> SetRow
        ensures { (set : ℕ) → set < 256 → has result set ≡ truth_of (depot_of self.now) (left_of self.now.row.now outcomes.now set) number }
    {
        match self.depot.formula_at(number) {
            None => every_set(),
            Some(formula) => true_after(formula, self.row, outcomes),
        }
    }

    // The sets after which a part of a move reads as true, as one does that there is not.
    fn part_after(&self, outcomes: &[Outcome], number: usize, part: usize) -> SetRow
        ensures { (set : ℕ) → set < 256 → has result set ≡ reads (depot_of self.now) (left_of self.now.row.now outcomes.now set) number part }
    {
        match self.part_of(number, part) {
            None => every_set(),
            Some(formula) => self.formula_after(outcomes, formula),
        }
    }

    // The sets after which some part of a move reads otherwise than at this moment.
    fn other_after(&self, outcomes: &[Outcome], number: usize) -> SetRow
        ensures { (set : ℕ) → set < 256 → has result set ≡ at self.now some_part_other (left_of self.now.row.now outcomes.now set) number }
    {
        let mut sets = no_set();
        let parts = self.depot.effects_of(number).len() + 1;
        for part in 0..parts {
            let after = self.part_after(outcomes, number, part);
            sets = either(&sets, &unlike(&after, self.part_reads(number, part)));
        }
        sets
    }

    // The sets that disturb the move at a place outside them, by the move's number.
    fn disturbing_at(&self, outcomes: &[Outcome], place: usize, number: usize) -> SetRow
        ensures { (set : ℕ) → set < 256 → has result set ≡ (at self.now some_part_other (left_of self.now.row.now outcomes.now set) number && not (in_set set place)) }
    {
        both(
            &self.other_after(outcomes, number),
            &others(&sets_with(place)),
        )
    }

    // The sets that disturb a move of a step at a place outside them.
    pub(crate) fn disturbing(&self, moves: &[usize], outcomes: &[Outcome]) -> SetRow
        requires { at self.now AreOutcomes moves.now outcomes.now }
        ensures { (set : ℕ) → set < 256 → has result set ≡ at self.now disturbs moves.now set (length moves.now) }
    {
        let mut sets = no_set();
        // By their places, since a loop over moves with places is refused in a function with a type parameter.
        for i in 0..moves.len() {
            sets = either(&sets, &self.disturbing_at(outcomes, i + 1, moves[i]));
        }
        sets
    }
}
