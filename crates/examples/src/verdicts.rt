// What the tests say of a sheet that is refused.
use sheets::faults::Fault;

// The line, the number and the field of a refusal, as a report prints them: the field is 0 where unused, and the line
// where the refusal speaks of none.
#[derive(Clone, Copy, Debug, PartialEq, Eq)]
pub struct Verdict {
    pub line: usize,
    pub number: u8,
    pub field: usize,
}

impl From<Fault> for Verdict {
    fn from(fault: Fault) -> Verdict {
        let [field, ..] = fault.refusal.details();
        Verdict {
            line: fault.line,
            number: fault.refusal.number(),
            field,
        }
    }
}

// A row of a test: the line, the number and the field.
impl From<(usize, u8, usize)> for Verdict {
    fn from((line, number, field): (usize, u8, usize)) -> Verdict {
        Verdict {
            line,
            number,
            field,
        }
    }
}
