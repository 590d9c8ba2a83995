// What holds of every plan sheet and of every plan, as contracts that the check asks the proof of.
ghost use Rattle.std.specs.Prelude.{ℕ, List};
ghost use Rattle.plans.specs.Laws.{AcceptedPlansPass, PlansHaveOneOutcome, SheetFixes};

// Under given names of moves a sheet spells one plan at the most, has one refusal at the most, and not both.
pub fn sheets_fix_the_plan()
    ensures { (names : List (List ℕ)) → SheetFixes names }
{}

// Judged twice, a plan leaves the same facts standing or has the same fault, to the last detail.
pub fn plans_have_one_outcome()
    ensures { PlansHaveOneOutcome }
{}

// A plan is accepted exactly if each of its steps is in its turn, and then the goal is true.
pub fn accepted_plans_pass()
    ensures { AcceptedPlansPass }
{}
