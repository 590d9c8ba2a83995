// A call on a walkthrough and its answer. They stand alone here, since the definitions that speak of them are imported by the
// rest.
use sheets::refusals::Refusal;

// A call: a step of move numbers, or the question whether the formula or the fact with a number is true or stands.
#[derive(Clone, Copy)]
pub enum Call<'a> {
    Step(&'a [usize]),
    Truth(usize),
    Look(usize),
}

// What a call answers: how many listed facts the step changed, yes or no, or why not.
#[derive(Clone, Copy)]
pub enum Answer {
    Changed(usize),
    Told(bool),
    Refused(Refusal),
}

// A call with the slot for its answer, which is empty until the call is sent.
#[derive(Clone, Copy)]
pub struct Exchange<'a> {
    pub call: Call<'a>,
    pub answer: Option<Answer>,
}
