// The facts that a sheet lists, and which of them a text is.
ghost use Rattle.std.specs.Prelude.{◌≡◌};
ghost use Rattle.facts.specs.Numbering.{has_form, number_under};

use crate::kinds::Kind;
use crate::listed::number_of_same;
use crate::names::{Names, NoFact};

// The facts that a sheet lists, in their order, with the names that they are read under, lent by whoever keeps them.
#[derive_where(Clone, Copy)]
pub struct ListedFacts<'a, K: Kind> {
    pub names: &'a Names,
    pub facts: &'a [K::Fact],
}

impl<'a, K: Kind> ListedFacts<'a, K> {
    // Which listed fact a text is: its number, counted from 1.
    pub fn number_of(&self, text: &[u8]) -> Result<usize, NoFact>
        ensures { result ≡ number_under K.Kind self.now text.now }
    {
        let fact = K::read(self.names, text)?;
        number_of_same::<K>(self.facts, &fact).ok_or(NoFact::NotListed)
    }

    // Whether a text has the form of a fact, be it listed or not.
    pub fn has_form(&self, text: &[u8]) -> bool
        ensures { result ≡ has_form (number_under K.Kind self.now text.now) }
    {
        !matches!(self.number_of(text), Err(NoFact::NotItsForm))
    }
}
