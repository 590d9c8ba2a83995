// Marks turned to the facts that a step leaves.
ghost use Rattle.std.specs.Prelude.{◌≡◌, ◌≤◌};
ghost use Rattle.formulas.specs.Truth.{stands_in};
ghost use Rattle.walkthroughs.specs.Marks.{moved_to, standing};
ghost use Rattle.walkthroughs.specs.Steps.{changed};

use crate::marks::{Marks, Row};

impl Marks {
    // Turns just those of the facts 1 to `count` that are to stand otherwise, the lowest first, and answers how many.
    pub(crate) fn turn_to(&mut self, wanted: &Row, count: usize) -> usize
        requires { count ≤ 128 }
        ensures after { standing self.new ≡ moved_to count (standing self.old) (stands_in wanted.now) }
        ensures changes { result ≡ changed count (standing self.old) (stands_in wanted.now) }
    {
        // Counted in the walk that turns: to count first would walk the facts twice, and ask the same of each.
        let mut changes = 0;
        for (i, wanted) in wanted[..count].iter().enumerate() {
            if self.stands(i + 1) != *wanted {
                self.turn(i + 1);
                changes += 1;
            }
        }
        changes
    }
}
