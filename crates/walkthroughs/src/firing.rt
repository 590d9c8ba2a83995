// What each move of a step adds and removes, judged once at the step's start.
ghost use Rattle.std.specs.Prelude.{◌≡◌, ℕ, Bool, ◌||◌, []};
ghost use Rattle.depots.specs.Tables.{effect_of, tables_of};
ghost use Rattle.formulas.specs.Truth.{stands_in};
ghost use Rattle.walkthroughs.specs.Firing.{any};
ghost use Rattle.walkthroughs.specs.Kinds.{MarksBy, carries_among};
ghost use Rattle.walkthroughs.specs.Moments.{at};
ghost use Rattle.walkthroughs.specs.Outcomes.{IsOutcome, Together, WithEffect};

use crate::by_number::mark_by;
use crate::marks::{MOST_MARKS, Row};
use crate::moment::Moment;
use depots::depot::Effect;
use facts::added_marks::{add_carried, add_carriers};
use facts::kinds::Kind;

// The facts that the fired effects of a move add, and those that they remove. Rows of marks hold them, since no call of a
// walkthrough may allocate.
#[derive(Clone, Copy)]
pub struct Outcome {
    pub(crate) adds: Row,
    pub(crate) removes: Row,
}

impl Outcome {
    // No fact is added and none removed.
    pub(crate) fn nothing() -> Outcome
        ensures { Together [] result }
    {
        Outcome {
            adds: [false; MOST_MARKS],
            removes: [false; MOST_MARKS],
        }
    }
}

impl<K: Kind> Moment<'_, K> {
    // Adds what an effect does, if it fires.
    fn fire_effect(&self, effect: &Effect, outcome: &mut Outcome)
        ensures { at self.now WithEffect (effect_of effect.now) outcome.old outcome.new }
    {
        if !self.is_true(effect.condition()) {
            return;
        }
        let facts = self.depot.facts();
        mark_by(
            self.depot,
            effect.settings(),
            |fact, row| add_carried::<K>(facts, fact, row),
            &mut outcome.adds,
        );
        mark_by(
            self.depot,
            effect.strikes(),
            |fact, row| add_carriers::<K>(facts, fact, row),
            &mut outcome.removes,
        );
    }

    // What the fired effects of a move do.
    pub(crate) fn fire(&self, number: usize) -> Outcome
        ensures { at self.now IsOutcome number result }
    {
        let mut outcome = Outcome::nothing();
        for effect in self.depot.effects_of(number) {
            self.fire_effect(effect, &mut outcome);
        }
        outcome
    }
}
