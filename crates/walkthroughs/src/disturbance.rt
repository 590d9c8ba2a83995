// Whether some set of a step's moves disturbs a move outside it: the lowest set, then place, then part.
ghost use Rattle.std.specs.Prelude.{◌<◌, ◌≤◌, length};
ghost use Rattle.formulas.specs.Truth.{stands_in};
ghost use Rattle.walkthroughs.specs.Disturbance.{Otherwise, SetDisturbs};
ghost use Rattle.walkthroughs.specs.Moments.{at};
ghost use Rattle.walkthroughs.specs.Outcomes.{AreOutcomes};
ghost use Rattle.walkthroughs.specs.Searching.{DisturbsAt, DisturbsBy, LowestBy, one, row_of};

use crate::after::after_set;
use crate::firing::Outcome;
use crate::marks::Row;
use crate::moment::Moment;
use crate::set_rows::has;
use crate::sets::in_set;
use facts::kinds::Kind;

// A part of the move at a place outside a set that reads otherwise after the moves of the set.
#[derive(Clone, Copy)]
pub(crate) struct Disturbance {
    pub(crate) set: usize,
    pub(crate) place: usize,
    pub(crate) part: usize,
}

impl<K: Kind> Moment<'_, K> {
    // The lowest part of a move that reads otherwise than at this moment.
    fn other_part(&self, after: &Row, number: usize) -> Option<usize>
        ensures { LowestBy one (at self.now Otherwise (stands_in after.now) number) result }
    {
        let then = Moment {
            depot: self.depot,
            row: after,
        };
        let parts = self.depot.effects_of(number).len() + 1;
        (0..parts).find(|&part| then.part_reads(number, part) != self.part_reads(number, part))
    }

    // The disturbance by a set at a place: the lowest part of the move there that reads otherwise, if it is outside the set.
    fn disturbed_at(
        &self,
        after: &Row,
        set: usize,
        place: usize,
        number: usize,
    ) -> Option<Disturbance>
        requires { 0 < place }
        ensures { LowestBy row_of (at self.now DisturbsAt (stands_in after.now) set place number) result }
    {
        if in_set(set, place) {
            return None;
        }
        self.other_part(after, number)
            .map(|part| Disturbance { set, place, part })
    }

    // The lowest disturbance by a set: the lowest place outside it whose move has a part that reads otherwise after the moves
    // of the set, with the lowest such part.
    fn disturbed_by(&self, moves: &[usize], outcomes: &[Outcome], set: usize) -> Option<Disturbance>
        requires { at self.now AreOutcomes moves.now outcomes.now }
        ensures { LowestBy row_of (at self.now DisturbsBy moves.now set) result }
    {
        let after = after_set(self.row, outcomes, set);
        moves
            .iter()
            .enumerate()
            .find_map(|(i, &m)| self.disturbed_at(&after, set, i + 1, m))
    }

    // The lowest disturbance of a step. The moves and what they do come as two lists, since the moves are judged before
    // anything is known of what they do.
    pub(crate) fn disturbance(&self, moves: &[usize], outcomes: &[Outcome]) -> Option<Disturbance>
        requires few { length moves.now ≤ 8 }
        requires outcomes { at self.now AreOutcomes moves.now outcomes.now }
        ensures { LowestBy row_of (λ x. at self.now SetDisturbs moves.now x.set x.place x.part) result }
    {
        // The parts are gone over one by one after the lowest set that disturbs alone.
        let sets = self.disturbing(moves, outcomes);
        let set = (0..1usize << moves.len()).find(|&set| has(&sets, set))?;
        self.disturbed_by(moves, outcomes, set)
    }
}
