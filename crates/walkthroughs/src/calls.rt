// The calls of a walkthrough. None of them allocates, and none trusts its caller: any depot may be shown, and any number.
ghost use Rattle.std.specs.Prelude.{◌≡◌};
ghost use Rattle.depots.specs.Tables.{tables_of};
ghost use Rattle.walkthroughs.specs.Depots.{truth_of};
ghost use Rattle.walkthroughs.specs.Ruled.{ruled};
ghost use Rattle.walkthroughs.specs.Runs.{Answered};
ghost use Rattle.walkthroughs.specs.Runs.Answer.{accepted, told};
ghost use Rattle.walkthroughs.specs.Runs.Call.{look, step, truth};
ghost use Rattle.walkthroughs.specs.Walkthroughs.{Answers, Made, held};

use crate::marks::Marks;
use crate::moment::Moment;
use crate::start::started;
use crate::walkthrough::Walkthrough;
use depots::depot::Depot;
use facts::kinds::Kind;
use formulas::truth::truth;
use sheets::faults::Fault;
use sheets::refusals::Refusal;

impl Walkthrough {
    // A walkthrough at the start of a depot: the started facts stand, and every listed fact that they carry.
    pub fn make<K: Kind>(depot: &Depot<K>) -> Result<Walkthrough, Fault>
        ensures { Made K.carrying (tables_of depot.now) result }
    {
        if depot.is_empty() {
            return Err(Fault::unplaced(Refusal::NoGoal));
        }
        let mut marks = Marks::none();
        marks.turn_to(&started(depot), depot.facts().len());
        Ok(Walkthrough { marks })
    }

    // Whether the fact of a number stands. Beside `look`, which refuses a number that a depot does not list: a caller that walks
    // a depot's own list counts the numbers itself, and has none to refuse.
    pub fn stands(&self, number: usize) -> bool
        ensures { result ≡ (held self.now).stands number }
    {
        self.marks.stands(number)
    }

    // Whether the fact with a number stands.
    pub fn look<K: Kind>(&self, depot: &Depot<K>, number: usize) -> Result<bool, Fault>
        ensures { Answers told (λ a. Answered (ruled K.carrying (tables_of depot.now)) (held self.now) (look number) a (held self.now)) result }
    {
        if depot.fact_at(number).is_none() {
            return Err(Fault::unplaced(Refusal::UnknownNumber));
        }
        Ok(self.stands(number))
    }

    // Whether the formula with a number is true.
    pub fn truth<K: Kind>(&self, depot: &Depot<K>, number: usize) -> Result<bool, Fault>
        ensures { Answers told (λ a. Answered (ruled K.carrying (tables_of depot.now)) (held self.now) (truth number) a (held self.now)) result }
    {
        let formula = depot
            .formula_at(number)
            .ok_or(Fault::unplaced(Refusal::UnknownNumber))?;
        Ok(truth(formula, &self.marks.row()))
    }

    // Whether the goal is true. An empty depot asks nothing, so there it is.
    pub fn meets_goal<K: Kind>(&self, depot: &Depot<K>) -> bool
        ensures { let d = ruled K.carrying (tables_of depot.now) in result ≡ truth_of d (held self.now).stands d.goal }
    {
        let row = self.marks.row();
        let moment = Moment { depot, row: &row };
        match depot.goal() {
            None => true,
            Some(goal) => moment.is_true(goal),
        }
    }

    // Does the moves with some numbers together, in no known order, if no order could matter: the facts that they add and
    // remove, and how many listed facts changed their standing. A step that is refused changes nothing.
    pub fn step<K: Kind>(&mut self, depot: &Depot<K>, moves: &[usize]) -> Result<usize, Fault>
        ensures { Answers accepted (λ a. Answered (ruled K.carrying (tables_of depot.now)) (held self.old) (step moves.now) a (held self.new)) result }
    {
        let row = self.marks.row();
        let moment = Moment { depot, row: &row };
        let after = moment.judge(moves).map_err(Fault::unplaced)?;
        Ok(self.marks.turn_to(&after, depot.facts().len()))
    }
}
