// What the answers of the kinds mean in words, each as the contract of a function.
ghost use Rattle.std.specs.Prelude.{◌≡◌, false, Decides};
ghost use Rattle.facts.specs.Meaning.{ReadsBack, SameByText};
ghost use Rattle.facts.specs.Sight.{watchers_of, Carries};
ghost use Rattle.facts.specs.Texts.{Listing};
ghost use Rattle.facts.specs.Watchers.{Idle};
ghost use Rattle.facts.specs.Worked.{Worked};

use crate::kinds::Kind;
use crate::plain::{Plain, PlainFact};
use crate::sight::Sight;
use crate::sighted::SightFact;
use crate::spelled_kinds::SpelledKind;

// A plain fact carries only itself.
pub fn plain_carries(a: &PlainFact, b: &PlainFact) -> bool
    ensures { Decides result (a.now ≡ b.now) }
{
    Plain::carries(a, b)
}

// No plain fact is always true.
pub fn plain_is_always_true(fact: &PlainFact) -> bool
    ensures { result ≡ false }
{
    Plain::always_true(fact)
}

// A sight fact carries another if they are the same, or if it is `all` before what the other has one or more watchers before.
pub fn sight_carries(a: &SightFact, b: &SightFact) -> bool
    ensures { Decides result (Carries a.now b.now) }
{
    Sight::carries(a, b)
}

// A sight fact is always true if some watcher in it is followed by itself or by `all`.
pub fn sight_is_always_true(fact: &SightFact) -> bool
    ensures { Decides result (Idle (watchers_of fact.now)) }
{
    Sight::always_true(fact)
}

// Under the same names a fact gives its text back, so two texts are the same fact exactly if they are equal.
pub fn text_tells_facts<K: SpelledKind>()
    ensures back { (listing : Listing) → ReadsBack (K.reading_under listing) (K.spelling_under listing) }
    ensures same { (listing : Listing) → SameByText (K.reading_under listing) K.alike }
{}

// Lines worked by hand come out as they should.
pub fn worked_lines_come_out()
    ensures { Worked }
{}
