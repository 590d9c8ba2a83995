// A plan: the steps that its sheet lists, in their order. Only the reader makes one, so every step has 1 to 8 moves, each of
// them listed and none twice.
ghost use Rattle.std.specs.Prelude.{◌≡◌, map};
ghost use Rattle.plans.specs.Plans.{moves_of, steps_of};

use facts::short_list::ShortList;

// The most moves of a step.
pub const MOST_MOVES: usize = 8;

// Moves that are done together (a joint action), by their numbers: the first is place 1 of the step.
#[derive(Clone, Copy, Drop)]
pub struct Step {
    pub(crate) moves: ShortList<usize, MOST_MOVES>,
}

// A plan (a parallel plan): its steps, in their order.
#[derive(Drop)]
pub struct Plan {
    pub(crate) steps: Vec<Step>,
}

impl Step {
    // The numbers of the moves, in the order of their places.
    pub fn moves(&self) -> &[usize]
        ensures { result.now ≡ moves_of self.now }
    {
        self.moves.entries()
    }
}

impl Plan {
    // The steps, in their order.
    pub fn steps(&self) -> &[Step]
        ensures { map moves_of result.now ≡ steps_of self.now }
    {
        &self.steps
    }
}
