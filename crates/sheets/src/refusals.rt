// Why a call says no. The promises about numbers and details go by `number_of` and `details_of` of specs/Refusals.
ghost use Rattle.std.specs.Prelude.{◌≡◌};
ghost use Rattle.sheets.specs.declared.refusals.Refusal.TheVariants.{NoMemory};
ghost use Rattle.sheets.specs.Refusals.{number_of, details_of};

use std::alloc::{AllocError, AllocFailed};

// One case for each reason, with what it tells of the place. Fields of a line, places of a step, effects of a move
// and parts of a move are counted as the rules count them: from 1, but for the part 0 that is a move's need.
#[derive(Clone, Copy)]
pub enum Refusal {
    // the sheet has more bytes than it may
    OverLimit,
    // the line lacks its end, is too long or has a byte that is not allowed
    BadLine,
    // the line's letter is unknown or may not come here
    BadLetter,
    // the line has another number of fields than its letter asks
    FieldCount,
    // the field has not its form
    NotItsForm {
        field: usize,
    },
    // the field names a zone, matter, fact or move that is not listed
    NotListed {
        field: usize,
    },
    // the field lists or starts something twice, or has something twice
    Twice {
        field: usize,
    },
    // the field lists a fact that is always true
    AlwaysTrue {
        field: usize,
    },
    // the line takes a table, the formula sizes or the steps over their limit
    TableFull,
    // the sheet ends without its goal, or the depot is empty
    NoGoal,
    // the step has no move or more than eight
    StepSize,
    // the move number at the place is not listed
    UnknownMove {
        place: usize,
    },
    // the move at the place is there before it too
    RepeatedMove {
        place: usize,
    },
    // the need of the move at the place is false
    NeedFalse {
        place: usize,
    },
    // one effect's setting carries a fact that the other strikes
    Contradictory {
        setting_place: usize,
        setting_effect: usize,
        strike_place: usize,
        strike_effect: usize,
    },
    // the part of the move at the place reads otherwise after the moves of the set
    Disturbed {
        set: usize,
        place: usize,
        part: usize,
    },
    // the goal is false after the last step
    GoalFalse,
    // the fact or formula number is not listed
    UnknownNumber,
    // the buffer is shorter than the report
    BufferShort,
    // there was no memory to go on: a case here, since a call says no by one record, which `?` hands on; the number 0,
    // since it is no reason of the rules
    NoMemory,
}

// Both written out, since a derived `From` has no contract.
impl From<AllocError> for Refusal {
    ghost from_gives = { λ _ r. r ≡ NoMemory };

    fn from(_: AllocError) -> Refusal {
        Refusal::NoMemory
    }
}

impl<T: Drop> From<AllocFailed<T>> for Refusal {
    ghost from_gives = { λ _ r. r ≡ NoMemory };

    fn from(_: AllocFailed<T>) -> Refusal {
        Refusal::NoMemory
    }
}

impl Refusal {
    // The reason's number, as it is printed. The cases carry what they tell of the place, so no cast gives it.
    pub fn number(&self) -> u8
        ensures { result ≡ number_of self.now }
    {
        match self {
            Refusal::OverLimit => 1,
            Refusal::BadLine => 2,
            Refusal::BadLetter => 3,
            Refusal::FieldCount => 4,
            Refusal::NotItsForm { .. } => 5,
            Refusal::NotListed { .. } => 6,
            Refusal::Twice { .. } => 7,
            Refusal::AlwaysTrue { .. } => 8,
            Refusal::TableFull => 9,
            Refusal::NoGoal => 10,
            Refusal::StepSize => 11,
            Refusal::UnknownMove { .. } => 12,
            Refusal::RepeatedMove { .. } => 13,
            Refusal::NeedFalse { .. } => 14,
            Refusal::Contradictory { .. } => 15,
            Refusal::Disturbed { .. } => 16,
            Refusal::GoalFalse => 17,
            Refusal::UnknownNumber => 18,
            Refusal::BufferShort => 19,
            Refusal::NoMemory => 0,
        }
    }

    // The four details, 0 where unused, as they are printed.
    pub fn details(&self) -> [usize; 4]
        ensures { result ≡ details_of self.now }
    {
        match *self {
            Refusal::NotItsForm { field }
            | Refusal::NotListed { field }
            | Refusal::Twice { field }
            | Refusal::AlwaysTrue { field } => [field, 0, 0, 0],
            Refusal::UnknownMove { place }
            | Refusal::RepeatedMove { place }
            | Refusal::NeedFalse { place } => [place, 0, 0, 0],
            Refusal::Contradictory {
                setting_place,
                setting_effect,
                strike_place,
                strike_effect,
            } => { [setting_place, setting_effect, strike_place, strike_effect] }
            Refusal::Disturbed { set, place, part } => [set, place, part, 0],
            _ => [0, 0, 0, 0],
        }
    }
}
