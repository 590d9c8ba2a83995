// The names that a sheet lists, and which of them a text is.
ghost use Rattle.std.specs.Prelude.{◌≡◌, ℕ, List, IfOk};
ghost use Rattle.std.specs.Str.{bytes_eq};
ghost use Rattle.sheets.specs.Listed.{place_of};

use std::alloc::{AllocError, Global};
use std::marker::Model;

// A listed name. To callers it is the text that a sheet gives it.
#[derive(Drop)]
pub struct Name {
    text: Vec<u8>,
}

impl Model for Name {
    ghost Value = { List ℕ };

    ghost view = { λ name. name.text.items };
}

impl Name {
    pub fn new(heap: Global, text: &[u8]) -> Result<Name, AllocError>
        ensures { IfOk result (λ name. name ≡ text.now) }
    {
        Ok(Name {
            text: text.to_vec(heap)?,
        })
    }

    pub fn text(&self) -> &[u8]
        ensures { result.now ≡ self.now }
    {
        &self.text
    }

    // Whether the name is written like this. No `==`, since a name is compared with a text and not with a name.
    pub fn is(&self, text: &[u8]) -> bool
        ensures { result ≡ bytes_eq self.now text.now }
    {
        self.text() == text
    }
}

// The index, counted from 0, of the first listed name that is this text.
pub fn find(names: &[Name], text: &[u8]) -> Option<usize>
    ensures { result ≡ place_of text.now names.now }
{
    names.iter().position(|name| name.is(text))
}
