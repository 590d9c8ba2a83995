// Any list of calls, on a walkthrough that is made for it.
ghost use Rattle.std.specs.Prelude.{◌≡◌, MatchResult, is_none, true, false};
ghost use Rattle.sheets.specs.declared.refusals.Refusal.TheVariants.{NoGoal};
ghost use Rattle.depots.specs.Tables.{tables_of};
ghost use Rattle.walkthroughs.specs.Exchanges.{Lawful, call_of, answer_of};
ghost use Rattle.walkthroughs.specs.Ruled.{ruled};
ghost use Rattle.walkthroughs.specs.Runs.{Answered};
ghost use Rattle.sheets.specs.Refusals.{unplaced};
ghost use Rattle.walkthroughs.specs.Walkthroughs.{held};

use crate::exchange::{Answer, Call, Exchange};
use crate::walkthrough::Walkthrough;
use depots::depot::Depot;
use facts::kinds::Kind;
use sheets::faults::Fault;

impl Walkthrough {
    // The answer of one call.
    fn answer<K: Kind>(&mut self, depot: &Depot<K>, call: &Call) -> Answer
        ensures { Answered (ruled K.carrying (tables_of depot.now)) (held self.old) (call_of call.now) (answer_of result) (held self.new) }
    {
        let told = match call {
            Call::Step(moves) => self.step(depot, moves).map(Answer::Changed),
            Call::Truth(number) => self.truth(depot, *number).map(Answer::Told),
            Call::Look(number) => self.look(depot, *number).map(Answer::Told),
        };
        match told {
            Ok(answer) => answer,
            Err(fault) => Answer::Refused(fault.refusal),
        }
    }
}

// Makes a walkthrough of a depot, sends it the calls in turn and puts each answer beside its call. It hands back the
// walkthrough, as the calls left it. Only an empty depot is refused.
pub fn run<K: Kind>(depot: &Depot<K>, exchanges: &mut [Exchange]) -> Result<Walkthrough, Fault>
    ensures { MatchResult result (λ w. (is_none (tables_of depot.now).goal ≡ false) × Lawful (ruled K.carrying (tables_of depot.now)) exchanges.old exchanges.new (held w)) (λ f. (is_none (tables_of depot.now).goal ≡ true) × (f ≡ unplaced NoGoal) × (exchanges.new ≡ exchanges.old)) }
{
    let mut walkthrough = Walkthrough::make(depot)?;
    for i in 0..exchanges.len() {
        let call = exchanges[i].call;
        exchanges[i].answer = Some(walkthrough.answer(depot, &call));
    }
    Ok(walkthrough)
}
