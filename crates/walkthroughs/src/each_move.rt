// What is wrong with the moves of a step one by one: the lowest place of each reason. Places are counted from 1, so that of
// a move is one more than the `position` that the library finds.
ghost use Rattle.std.specs.Prelude.{◌≡◌};
ghost use Rattle.walkthroughs.specs.Moments.{at};
ghost use Rattle.walkthroughs.specs.Searching.{LowestBy, one};
ghost use Rattle.walkthroughs.specs.Steps.{FalseAt, RepeatedAt, UnknownAt};

use crate::moment::Moment;
use facts::kinds::Kind;

// The lowest place whose move is not listed, of so many that are.
pub(crate) fn unknown_move(count: usize, moves: &[usize]) -> Option<usize>
    ensures { LowestBy one (UnknownAt count moves.now) result }
{
    moves
        .iter()
        .position(|m| !(1..=count).contains(m))
        .map(|before| before + 1)
}

// The lowest place whose move stands at a place before it too. A list of settings asks only whether it has a repeat.
pub(crate) fn repeated_move(moves: &[usize]) -> Option<usize>
    ensures { LowestBy one (RepeatedAt moves.now) result }
{
    moves
        .iter()
        .enumerate()
        .position(|(i, m)| moves[..i].contains(m))
        .map(|before| before + 1)
}

impl<K: Kind> Moment<'_, K> {
    // The lowest place whose move's need is false.
    pub(crate) fn false_need(&self, moves: &[usize]) -> Option<usize>
        ensures { LowestBy one (at self.now FalseAt moves.now) result }
    {
        moves
            .iter()
            .position(|&m| !self.part_reads(m, 0))
            .map(|before| before + 1)
    }
}
