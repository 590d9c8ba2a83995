// The sight kind: a fact is up to five watchers and then a matter.
ghost use Rattle.std.specs.Prelude.{◌≡◌, codes, refl};
ghost use Rattle.facts.specs.Sight.{watchers_of, sight_reading, sight_same, sight_carries, sight_certain, sight_spelled};
ghost use Rattle.facts.specs.Limits.{sight_at_most, sight_reached};
ghost use Rattle.facts.specs.Spelling.{sight_back, sight_same-by_text};
ghost use Rattle.facts.specs.Texts.{zones_of, matters_of};
ghost use Rattle.facts.specs.Carrying.{sight_carries-refl, sight_carries-trans};

use crate::kinds::Kind;
use crate::names::{Names, NoFact};
use crate::sighted::{MOST_WATCHERS, SightFact, Watcher};
use crate::spelled_kinds::SpelledKind;
use crate::text_kinds::TextKind;
use crate::{sight_text, watchers};

impl SightFact {
    // The watchers, in their order.
    pub fn seen_by(&self) -> &[Watcher]
        ensures { result.now ≡ watchers_of self.now }
    {
        self.watchers.entries()
    }
}

// The kind whose facts say who sees a matter.
pub struct Sight;

impl Kind for Sight {
    type Fact = SightFact;

    const MOST_WATCHERS: usize = MOST_WATCHERS;

    ghost MOST_WATCHERS = { 5 };

    ghost wording = { codes "sight" };

    ghost reading = { λ names. sight_reading (zones_of names) (matters_of names) };

    ghost alike = { sight_same };

    ghost carrying = { sight_carries };

    ghost certain = { sight_certain };

    ghost reflexive = { sight_carries-refl };

    ghost transitive = { sight_carries-trans };

    fn is_word(text: &[u8]) -> bool {
        text == b"sight".as_slice()
    }

    fn read(names: &Names, text: &[u8]) -> Result<SightFact, NoFact> {
        sight_text::read(names, text)
    }

    // Not by `==` of facts: a derived one would compare the places past the count too, and one written for the list is longer
    // than this line.
    fn same(a: &SightFact, b: &SightFact) -> bool {
        a.matter == b.matter && a.seen_by() == b.seen_by()
    }

    fn carries(a: &SightFact, b: &SightFact) -> bool {
        a.matter == b.matter && watchers::carries_by(a.seen_by(), b.seen_by())
    }

    fn always_true(fact: &SightFact) -> bool {
        watchers::is_idle(fact.seen_by())
    }
}

impl TextKind for Sight {
    ghost reading_under = { λ listing. sight_reading listing.zones listing.matters };

    ghost goes_by_texts = { λ names. refl };
}

impl SpelledKind for Sight {
    ghost spelling_under = { λ listing. sight_spelled listing.zones listing.matters };

    ghost reads_back = { λ listing. sight_back listing.zones listing.matters };

    ghost same_by_text = { λ listing. sight_same-by_text listing.zones listing.matters };

    ghost at_most = { λ listing. sight_at_most listing.zones listing.matters };

    ghost reached = { sight_reached };
}
