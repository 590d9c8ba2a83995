// A plan run on a depot: its steps in turn on a new walkthrough, up to the first refusal, and then the goal.
ghost use Rattle.std.specs.Prelude.{◌≡◌, true, false, ◌⊎◌, length, Some, MatchResult, is_none};
ghost use Rattle.sheets.specs.declared.faults.Sheet.TheVariants as on;
ghost use Rattle.sheets.specs.declared.refusals.Refusal.TheVariants.{GoalFalse, NoGoal};
ghost use Rattle.sheets.specs.Refusals.{unplaced};
ghost use Rattle.depots.specs.Tables.{tables_of};
ghost use Rattle.walkthroughs.specs.Depots.{truth_of};
ghost use Rattle.walkthroughs.specs.Ruled.{ruled};
ghost use Rattle.walkthroughs.specs.Runs.{Answered};
ghost use Rattle.walkthroughs.specs.Runs.Answer.{accepted, refused};
ghost use Rattle.walkthroughs.specs.Runs.Call.{step};
ghost use Rattle.walkthroughs.specs.Walkthroughs.{held};
ghost use Rattle.plans.specs.Judging.{Passed, PlanAccepted, PlanFault, StoppedAt};
ghost use Rattle.plans.specs.Plans.{moves_of, steps_of};

use crate::plan::{Plan, Step};
use depots::depot::Depot;
use facts::kinds::Kind;
use sheets::faults::{Fault, Sheet};
use sheets::refusals::Refusal;
use walkthroughs::walkthrough::Walkthrough;

// Sends the step that stands on a line of the plan. A refusal is told with the line, and loses nothing that it tells.
fn send<K: Kind>(
    walkthrough: &mut Walkthrough,
    depot: &Depot<K>,
    line: usize,
    sent: &Step,
) -> Result<usize, Fault>
    ensures { let d = ruled K.carrying (tables_of depot.now) in MatchResult result (λ changes. Answered d (held walkthrough.old) (step (moves_of sent.now)) (accepted changes) (held walkthrough.new)) (λ f. (f.sheet ≡ Some on.Plan) × (f.line ≡ line) × Answered d (held walkthrough.old) (step (moves_of sent.now)) (refused f.refusal) (held walkthrough.new)) }
{
    walkthrough
        .step(depot, sent.moves())
        .map_err(|fault| Fault {
            sheet: Some(Sheet::Plan),
            line,
            ..fault
        })
}

// Sends the steps of a plan in turn to a new walkthrough, and hands that back as they left it, or the fault of the first step
// that is refused, with its line. Of an empty depot no walkthrough is made.
pub fn run_plan<K: Kind>(depot: &Depot<K>, plan: &Plan) -> Result<Walkthrough, Fault>
    ensures { MatchResult result (λ w. (is_none (tables_of depot.now).goal ≡ false) × Passed (ruled K.carrying (tables_of depot.now)) (steps_of plan.now) (held w)) (λ f. ((is_none (tables_of depot.now).goal ≡ true) × (f ≡ unplaced NoGoal)) ⊎ ((is_none (tables_of depot.now).goal ≡ false) × (f.sheet ≡ Some on.Plan) × StoppedAt (ruled K.carrying (tables_of depot.now)) (steps_of plan.now) f.line f.refusal)) }
{
    let mut walkthrough = Walkthrough::make(depot)?;
    for (i, step) in plan.steps().iter().enumerate() {
        send(&mut walkthrough, depot, i + 1, step)?;
    }
    Ok(walkthrough)
}

// Asks the goal of a walkthrough that stands after the last step of a plan. A false one is told with the line of that step,
// which is how many steps there are.
fn judge_goal<K: Kind>(
    walkthrough: &Walkthrough,
    depot: &Depot<K>,
    plan: &Plan,
) -> Result<(), Fault>
    ensures { let d = ruled K.carrying (tables_of depot.now) in MatchResult result (λ _. truth_of d (held walkthrough.now).stands d.goal ≡ true) (λ f. (truth_of d (held walkthrough.now).stands d.goal ≡ false) × (f.sheet ≡ Some on.Plan) × (f.line ≡ length (steps_of plan.now)) × (f.refusal ≡ GoalFalse)) }
{
    if !walkthrough.meets_goal(depot) {
        return Err(Fault::on(Sheet::Plan, plan.steps().len(), Refusal::GoalFalse));
    }
    Ok(())
}

// Judges a plan: its steps in turn, and the goal after the last. It hands back the walkthrough as the steps left it.
pub fn judge_plan<K: Kind>(depot: &Depot<K>, plan: &Plan) -> Result<Walkthrough, Fault>
    ensures { MatchResult result (λ w. (is_none (tables_of depot.now).goal ≡ false) × PlanAccepted (ruled K.carrying (tables_of depot.now)) (steps_of plan.now) (held w)) (λ f. ((is_none (tables_of depot.now).goal ≡ true) × (f ≡ unplaced NoGoal)) ⊎ ((is_none (tables_of depot.now).goal ≡ false) × PlanFault (ruled K.carrying (tables_of depot.now)) (steps_of plan.now) f)) }
{
    let walkthrough = run_plan(depot, plan)?;
    judge_goal(&walkthrough, depot, plan)?;
    Ok(walkthrough)
}
