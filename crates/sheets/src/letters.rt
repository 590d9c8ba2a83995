// The letters that begin the lines of a depot sheet.
ghost use Rattle.std.specs.Prelude.{◌≡◌, [], ◌∷◌};
ghost use Rattle.sheets.specs.Letters.{fields_of, among, letter_of, permitted};

// What a line says, in the order in which the lines come.
#[derive(Clone, Copy, PartialEq, Eq, PartialOrd, Ord)]
pub enum Letter {
    // K: the kind of the sheet's facts
    Kind,
    // Z: a zone
    Zone,
    // P: a matter
    Matter,
    // F: a listed fact
    Fact,
    // I: a fact that stands at the start
    Start,
    // M: a move and its need
    Move,
    // E: an effect of the move above it
    Effect,
    // G: the goal
    Goal,
}

// Whether the line above has a letter from one to another, in their order.
fn is_among(above: Option<Letter>, first: Letter, last: Letter) -> bool
    ensures { result ≡ among above first last }
{
    above.is_some_and(|letter| first <= letter && letter <= last)
}

impl Letter {
    // How many fields a line with this letter has, the letter among them.
    pub fn fields(self) -> usize
        ensures { result ≡ fields_of self }
    {
        match self {
            Letter::Move => 3,
            Letter::Effect => 4,
            _ => 2,
        }
    }
}

// The letter that a byte writes, if it may come below a line with the letter above. A match on the letters as they are
// written, with guards for their order, is the form that the project has fixed for this place; what stands above comes as
// two values, since the type that holds both stands on this one.
pub fn letter_here(byte: u8, above: Option<Letter>, sight: bool) -> Option<Letter>
    ensures { result ≡ permitted above sight (letter_of (byte ∷ [])) }
{
    match char::from(byte) {
        'K' if above.is_none() => Some(Letter::Kind),
        'Z' if sight && is_among(above, Letter::Kind, Letter::Zone) => Some(Letter::Zone),
        'P' if is_among(above, Letter::Kind, Letter::Matter) => Some(Letter::Matter),
        'F' if is_among(above, Letter::Kind, Letter::Fact) => Some(Letter::Fact),
        'I' if is_among(above, Letter::Kind, Letter::Start) => Some(Letter::Start),
        'M' if is_among(above, Letter::Kind, Letter::Effect) => Some(Letter::Move),
        'E' if is_among(above, Letter::Move, Letter::Effect) => Some(Letter::Effect),
        'G' if is_among(above, Letter::Kind, Letter::Effect) => Some(Letter::Goal),
        _ => None,
    }
}
