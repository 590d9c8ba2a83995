// A step judged: the facts after it, or why it is refused. Of all that is wrong the lowest number is told, so what is asked
// first is what ranks first.
ghost use Rattle.std.specs.Prelude.{◌≡◌, ◌<◌, ◌≤◌, length, MatchResult};
ghost use Rattle.facts.specs.ShortLists.{entries_of};
ghost use Rattle.formulas.specs.Truth.{stands_in};
ghost use Rattle.sheets.specs.declared.refusals.Refusal.{Refusal};
ghost use Rattle.sheets.specs.declared.refusals.Refusal.TheVariants.{Contradictory, Disturbed};
ghost use Rattle.sheets.specs.Refusals.{number_of};
ghost use Rattle.walkthroughs.specs.Firing.{after};
ghost use Rattle.walkthroughs.specs.Moments.{at};
ghost use Rattle.walkthroughs.specs.Outcomes.{AreOutcomes};
ghost use Rattle.walkthroughs.specs.Steps.{Accepted, StepFault, StepRefused};

use crate::after::after_set;
use crate::contradiction::Contradiction;
use crate::disturbance::Disturbance;
use crate::each_move::{repeated_move, unknown_move};
use crate::firing::Outcome;
use crate::marks::Row;
use crate::moment::Moment;
use facts::kinds::Kind;
use facts::short_list::ShortList;
use sheets::refusals::Refusal;

// The most moves of a step.
const MOST_MOVES: usize = 8;

// Both written out, since a derived `From` has no contract.
impl From<Contradiction> for Refusal {
    ghost from_gives = { λ x w. w ≡ Contradictory x.setting_place x.setting_effect x.strike_place x.strike_effect };

    fn from(found: Contradiction) -> Refusal {
        Refusal::Contradictory {
            setting_place: found.setting_place,
            setting_effect: found.setting_effect,
            strike_place: found.strike_place,
            strike_effect: found.strike_effect,
        }
    }
}

impl From<Disturbance> for Refusal {
    ghost from_gives = { λ x w. w ≡ Disturbed x.set x.place x.part };

    fn from(found: Disturbance) -> Refusal {
        Refusal::Disturbed {
            set: found.set,
            place: found.place,
            part: found.part,
        }
    }
}

impl<K: Kind> Moment<'_, K> {
    // Refuses a step for what is wrong with its moves one by one, which ranks before what they do together.
    fn judge_alone(&self, moves: &[usize]) -> Result<(), Refusal>
        ensures { MatchResult result (λ _. (w : Refusal) → number_of w < 15 → at self.now StepFault moves.now w → ⊥) (λ w. at self.now StepRefused moves.now w) }
    {
        if !(1..=MOST_MOVES).contains(&moves.len()) {
            return Err(Refusal::StepSize);
        }
        if let Some(place) = unknown_move(self.depot.move_count(), moves) {
            return Err(Refusal::UnknownMove { place });
        }
        if let Some(place) = repeated_move(moves) {
            return Err(Refusal::RepeatedMove { place });
        }
        if let Some(place) = self.false_need(moves) {
            return Err(Refusal::NeedFalse { place });
        }
        Ok(())
    }

    // What each move of a step does.
    fn outcomes(&self, moves: &[usize]) -> ShortList<Outcome, MOST_MOVES>
        requires { length moves.now ≤ 8 }
        ensures { at self.now AreOutcomes moves.now (entries_of result) }
    {
        let mut outcomes = ShortList::none(Outcome::nothing());
        for number in moves {
            // There is room, since a step has so many moves at the most.
            outcomes.push(self.fire(*number)).unwrap();
        }
        outcomes
    }

    // Refuses a step for what its moves do together, where nothing is wrong with them one by one.
    fn judge_together(&self, moves: &[usize], outcomes: &[Outcome]) -> Result<(), Refusal>
        requires alone { (w : Refusal) → number_of w < 15 → at self.now StepFault moves.now w → ⊥ }
        requires outcomes { at self.now AreOutcomes moves.now outcomes.now }
        ensures { MatchResult result (λ _. at self.now Accepted moves.now) (λ w. at self.now StepRefused moves.now w) }
    {
        if let Some(found) = self.contradiction(moves, outcomes) {
            return Err(found.into());
        }
        if let Some(found) = self.disturbance(moves, outcomes) {
            return Err(found.into());
        }
        Ok(())
    }

    // The facts after a step, or the lowest thing that is wrong with it.
    pub(crate) fn judge(&self, moves: &[usize]) -> Result<Row, Refusal>
        ensures { MatchResult result (λ row. at self.now Accepted moves.now × (stands_in row ≡ at self.now after moves.now)) (λ w. at self.now StepRefused moves.now w) }
    {
        self.judge_alone(moves)?;
        let outcomes = self.outcomes(moves);
        self.judge_together(moves, outcomes.entries())?;
        // The set of every place: its number is one less than the weight of a place more.
        let all = (1usize << moves.len()) - 1;
        Ok(after_set(self.row, outcomes.entries(), all))
    }
}
