// A formula as a tree. What stands at its leaves is left open: parts of a line while a sheet is read, numbers after.
ghost use Rattle.std.specs.Prelude.{◌≡◌};
ghost use Rattle.formulas.specs.declared.tree.Unread.TheVariants.{NoMemory};

use std::alloc::{AllocError, AllocFailed};

// A fact, the opposite of a formula, or all of some formulas.
#[derive(Drop)]
pub enum Formula<L> {
    Fact(L),
    Not(Box<Formula<L>>),
    All(Vec<Formula<L>>),
}

// Why no formula was read. Not `NoFact`: a text is read without any list, so it is never told as not listed.
#[derive(Clone, Copy, Debug, PartialEq, Eq)]
pub enum Unread {
    NotItsForm,
    NoMemory,
}

// `From` is written twice for this error and twice for `Unresolved`, all alike, since a derived one has no contract. One
// error for both, generic over what is wrong, would need a type for the one thing that can be wrong with a text, and every
// contract would name it.
impl From<AllocError> for Unread {
    ghost from_gives = { λ _ r. r ≡ NoMemory };

    fn from(_: AllocError) -> Unread {
        Unread::NoMemory
    }
}

impl<T: Drop> From<AllocFailed<T>> for Unread {
    ghost from_gives = { λ _ r. r ≡ NoMemory };

    fn from(_: AllocFailed<T>) -> Unread {
        Unread::NoMemory
    }
}
