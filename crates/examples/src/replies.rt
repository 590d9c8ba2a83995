// What the tests say of a call's answer.
use sheets::faults::Fault;
use sheets::refusals::Refusal;
use walkthroughs::exchange::Answer;

// An answer with what is printed of a refusal: its number and its four details.
#[derive(Clone, Copy, Debug, PartialEq, Eq)]
pub enum Reply {
    Changed(usize),
    Told(bool),
    Refused(u8, [usize; 4]),
}

impl From<Refusal> for Reply {
    fn from(refusal: Refusal) -> Reply {
        Reply::Refused(refusal.number(), refusal.details())
    }
}

impl From<Answer> for Reply {
    fn from(answer: Answer) -> Reply {
        match answer {
            Answer::Changed(changes) => Reply::Changed(changes),
            Answer::Told(told) => Reply::Told(told),
            Answer::Refused(refusal) => refusal.into(),
        }
    }
}

// What a question answers when it is asked by itself.
pub fn told(answer: Result<bool, Fault>) -> Reply {
    match answer {
        Ok(told) => Reply::Told(told),
        Err(fault) => fault.refusal.into(),
    }
}

// What a step answers when it is sent by itself.
pub fn changed(answer: Result<usize, Fault>) -> Reply {
    match answer {
        Ok(changes) => Reply::Changed(changes),
        Err(fault) => fault.refusal.into(),
    }
}
