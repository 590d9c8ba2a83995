// The names that one sheet lists, and why a text is no fact under them.
use sheets::listed::Name;

// A zone is who can see (an agent), a matter is what can be so (a proposition).
#[derive(Drop)]
pub struct Names {
    pub zones: Vec<Name>,
    pub matters: Vec<Name>,
}

// Why a text is no fact: it has not the form of one, or it has and names a zone or matter that is not listed. Where a text must
// be one of the listed facts, it is told as not listed also if it is a fact that is none of them.
#[derive(Clone, Copy, Debug, PartialEq, Eq)]
pub enum NoFact {
    NotItsForm,
    NotListed,
}
