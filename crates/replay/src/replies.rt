// What is printed for a line of a list of calls.
ghost use Rattle.std.specs.Prelude.{Some};
ghost use Rattle.replay.specs.Replies.{reply_line};

use std::fmt;
use walkthroughs::exchange::Answer;

// The answer to the call of a line; none where the line writes no call.
#[derive(Clone, Copy)]
pub struct Reply(pub Option<Answer>);

impl fmt::Display for Reply {
    ghost output = { λ reply. Some (reply_line reply.0) };

    fn fmt<W: fmt::Write>(&self, f: &mut fmt::Formatter<W>) -> fmt::Result {
        match self.0 {
            None => writeln!(f, "not a call"),
            Some(Answer::Changed(count)) => writeln!(f, "ok {count}"),
            Some(Answer::Told(true)) => writeln!(f, "y"),
            Some(Answer::Told(false)) => writeln!(f, "n"),
            Some(Answer::Refused(refusal)) => {
                let number = refusal.number();
                let [a, b, c, d] = refusal.details();
                writeln!(f, "NO {number} {a} {b} {c} {d}")
            }
        }
    }
}
