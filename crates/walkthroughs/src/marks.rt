// Which of 128 facts stand. What is promised of marks is `standing` alone, so that their inside can change.
ghost use Rattle.std.specs.Prelude.{◌≡◌};
ghost use Rattle.formulas.specs.Truth.{stands_in};
ghost use Rattle.walkthroughs.specs.Marks.{none_stand, standing, turned};

use depots::entries::MOST_FACTS;
use formulas::truth::stands;

// How many facts marks can have: all that a sheet may list.
pub const MOST_MARKS: usize = MOST_FACTS;

// Which facts stand, as marks: the one at index f - 1 is that of fact f.
pub(crate) type Row = [bool; MOST_MARKS];

// A row without a mark.
pub(crate) fn unmarked() -> Row
    ensures { stands_in result ≡ none_stand }
{
    [false; MOST_MARKS]
}

// Which facts stand, by number. They are seen by `standing` and not by a model: the value of a model needs a code, and which
// facts stand, a function, has one only by a proof that is longer than all that is promised here.
#[derive(Drop)]
pub struct Marks {
    on: Row,
}

impl Marks {
    // No fact stands.
    pub fn none() -> Marks
        ensures { standing result ≡ none_stand }
    {
        Marks {
            on: [false; MOST_MARKS],
        }
    }

    // Whether the fact of a number, counted from 1, stands. One outside 1 to 128 does not.
    pub fn stands(&self, number: usize) -> bool
        ensures { result ≡ standing self.now number }
    {
        stands(&self.on, number)
    }

    // Which facts stand, as a row.
    pub(crate) fn row(&self) -> Row
        ensures { stands_in result ≡ standing self.now }
    {
        self.on
    }

    // Turns the standing of one fact round. A number outside 1 to 128 turns nothing.
    pub fn turn(&mut self, number: usize)
        ensures { standing self.new ≡ turned (standing self.old) number }
    {
        // No `get_mut`, since of a slice that was written through it a proof knows no element.
        if 0 < number && number <= MOST_MARKS {
            self.on[number - 1] = !self.on[number - 1];
        }
    }
}
