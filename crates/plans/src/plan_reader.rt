// A plan sheet, read line by line before any step is done.
ghost use Rattle.std.specs.Prelude.{◌≡◌, ◌<◌, ◌≤◌, length, map, Some, MatchResult};
ghost use Rattle.sheets.specs.declared.faults.Sheet.TheVariants as on;
ghost use Rattle.sheets.specs.declared.refusals.Refusal.TheVariants.{OverLimit};
ghost use Rattle.sheets.specs.Lines.{shown};
ghost use Rattle.depots.specs.Tables.{tables_of};
ghost use Rattle.plans.specs.Plans.{moves_of, steps_of};
ghost use Rattle.plans.specs.Spelling.{PlanRead, PlanTold, StepAdded};
ghost use Rattle.plans.specs.Wrong.{plan_limit};

use crate::plan::{Plan, Step};
use crate::step_line::read_step;
use depots::depot::Depot;
use depots::troubles::at_line;
use facts::kinds::Kind;
use sheets::faults::{Fault, Sheet};
use sheets::lines::{Line, Lines};
use sheets::refusals::Refusal;
use std::alloc::Global;

// The most bytes of a plan sheet.
pub const PLAN_LIMIT: usize = 16384;

// The size of a plan sheet: within its limit, or refused before any line.
fn judge_limit(sheet: &[u8]) -> Result<(), Fault>
    ensures { MatchResult result (λ _. length sheet.now ≤ plan_limit) (λ f. (plan_limit < length sheet.now) × (f.sheet ≡ Some on.Plan) × (f.line ≡ 0) × (f.refusal ≡ OverLimit)) }
{
    if sheet.len() > PLAN_LIMIT {
        return Err(Fault::on(Sheet::Plan, 0, Refusal::OverLimit));
    }
    Ok(())
}

// Adds the step that a line is to those of the lines above it.
fn add_step<K: Kind>(depot: &Depot<K>, steps: &mut Vec<Step>, line: &Line) -> Result<(), Refusal>
    ensures { StepAdded (tables_of depot.now).names (map moves_of steps.old.items) (shown line.now) result (map moves_of steps.new.items) }
{
    let step = read_step(depot, steps.len(), line)?;
    steps.push(step)?;
    Ok(())
}

// Reads a plan sheet under the names of a depot's moves: the plan has the steps that its lines are, or the sheet is refused
// for its lowest fault.
pub fn read_plan<K: Kind>(heap: Global, depot: &Depot<K>, sheet: &[u8]) -> Result<Plan, Fault>
    ensures { MatchResult result (λ plan. PlanRead (tables_of depot.now).names sheet.now (steps_of plan)) (PlanTold (tables_of depot.now).names sheet.now) }
{
    judge_limit(sheet)?;
    let mut steps = Vec::new(heap);
    for (i, line) in Lines::of(sheet).enumerate() {
        let number = i + 1;
        let added = add_step(depot, &mut steps, &line);
        added.map_err(|refusal| at_line(Sheet::Plan, number, refusal))?;
    }
    Ok(Plan { steps })
}
