// The formulas of a depot and the parts of its moves, read at a moment.
ghost use Rattle.std.specs.Prelude.{◌≡◌};
ghost use Rattle.std.specs.Option.{unwrap_or};
ghost use Rattle.walkthroughs.specs.Depots.{part_of, reads, truth_of};
ghost use Rattle.walkthroughs.specs.Moments.{at, depot_of};

use crate::moment::Moment;
use depots::depot::Effect;
use facts::kinds::Kind;
use formulas::truth::truth;

impl<K: Kind> Moment<'_, K> {
    // Whether the formula with a number is true; where none is listed, it is.
    pub(crate) fn is_true(&self, number: usize) -> bool
        ensures { result ≡ at self.now truth_of number }
    {
        self.depot
            .formula_at(number)
            .is_none_or(|formula| truth(formula, self.row))
    }

    // The formula number of a part of a move, if there is the part: part 0 is its need, and part e the condition of its
    // effect e. A part is a number, as a refusal tells it.
    pub(crate) fn part_of(&self, number: usize, part: usize) -> Option<usize>
        ensures { unwrap_or result 0 ≡ part_of (depot_of self.now) number part }
    {
        match part.checked_sub(1) {
            None => self.depot.need_of(number),
            Some(before) => self
                .depot
                .effects_of(number)
                .get(before)
                .map(Effect::condition),
        }
    }

    // How a part of a move reads; one that there is not reads as true.
    pub(crate) fn part_reads(&self, number: usize, part: usize) -> bool
        ensures { result ≡ at self.now reads number part }
    {
        // Not by `is_none_or`: of what a closure answers that asks `is_true`, with a clause of its own or without, a proof learns
        // nothing here.
        match self.part_of(number, part) {
            None => true,
            Some(formula) => self.is_true(formula),
        }
    }
}
