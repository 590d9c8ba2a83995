// The plain kind: a fact is a listed matter and carries only itself.
ghost use Rattle.std.specs.Prelude.{codes, refl};
ghost use Rattle.facts.specs.Plain.{plain_reading, plain_same, plain_certain, plain_spelled};
ghost use Rattle.facts.specs.Limits.{plain_at_most, plain_reached};
ghost use Rattle.facts.specs.Spelling.{plain_back, plain_same-by_text};
ghost use Rattle.facts.specs.Texts.{matters_of};
ghost use Rattle.std.proofs.Common.{rules};

use crate::kinds::Kind;
use crate::names::{Names, NoFact};
use crate::spelled_kinds::SpelledKind;
use crate::text_kinds::TextKind;
use sheets::{listed, names};

// A fact (an atom): the listed matter at an index counted from 0.
#[derive(Clone, Copy, Debug, PartialEq, Eq)]
pub struct PlainFact {
    pub matter: usize,
}

// The kind whose facts are matters.
pub struct Plain;

impl Kind for Plain {
    type Fact = PlainFact;

    const MOST_WATCHERS: usize = 0;

    ghost MOST_WATCHERS = { 0 };

    ghost wording = { codes "plain" };

    ghost reading = { λ names. plain_reading (matters_of names) };

    ghost alike = { plain_same };

    ghost carrying = { plain_same };

    ghost certain = { plain_certain };

    ghost reflexive = { Prim.search rules };

    ghost transitive = { Prim.search rules };

    fn is_word(text: &[u8]) -> bool {
        text == b"plain".as_slice()
    }

    fn read(names: &Names, text: &[u8]) -> Result<PlainFact, NoFact> {
        if !names::is_name(text) {
            return Err(NoFact::NotItsForm);
        }
        listed::find(&names.matters, text)
            .map(|matter| PlainFact { matter })
            .ok_or(NoFact::NotListed)
    }

    fn same(a: &PlainFact, b: &PlainFact) -> bool {
        a == b
    }

    fn carries(a: &PlainFact, b: &PlainFact) -> bool {
        a == b
    }

    fn always_true(_fact: &PlainFact) -> bool {
        false
    }
}

impl TextKind for Plain {
    ghost reading_under = { λ listing. plain_reading listing.matters };

    ghost goes_by_texts = { λ names. refl };
}

impl SpelledKind for Plain {
    ghost spelling_under = { λ listing. plain_spelled listing.matters };

    ghost reads_back = { λ listing. plain_back listing.matters };

    ghost same_by_text = { λ listing. plain_same-by_text listing.matters };

    ghost at_most = { λ listing. plain_at_most listing.matters };

    ghost reached = { plain_reached };
}
