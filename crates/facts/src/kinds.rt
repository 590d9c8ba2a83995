// What a kind of fact settles: which texts are facts of it, which are the same, which carries which, which are always true.
ghost use Rattle.std.specs.Prelude.{◌≡◌, ℕ, Bool, true, List, Result};
ghost use Rattle.std.specs.Str.{bytes_eq};
ghost use Rattle.facts.specs.declared.names.Names.{Names};
ghost use Rattle.facts.specs.declared.names.NoFact.{NoFact};

use crate::names::{Names, NoFact};

// A kind of fact (a language of atoms). One fact carries another if the first cannot stand without the second (atomic consequence).
pub trait Kind {
    type Fact: Drop;

    // The most watchers that a fact of the kind can have, for code and for clauses.
    const MOST_WATCHERS: usize;

    ghost MOST_WATCHERS: { ℕ };

    // The word that names the kind in a sheet.
    ghost wording: { List ℕ };

    // The fact that a text is under some names, or why it is none.
    ghost reading: { Names → List ℕ → Result Self.Fact NoFact };

    // Two facts are the same.
    ghost alike: { Self.Fact → Self.Fact → Bool };

    // The first fact carries the second.
    ghost carrying: { Self.Fact → Self.Fact → Bool };

    // A fact is always true.
    ghost certain: { Self.Fact → Bool };

    // Whether a text is the kind's word. Each kind compares it, since a trait's function that answers a text is not proved.
    fn is_word(text: &[u8]) -> bool
        ensures { result ≡ bytes_eq text.now wording };

    // The fact that a text is under the names that a sheet lists.
    fn read(names: &Names, text: &[u8]) -> Result<Self::Fact, NoFact>
        ensures { result ≡ reading names.now text.now };

    fn same(a: &Self::Fact, b: &Self::Fact) -> bool
        ensures { result ≡ alike a.now b.now };

    fn carries(a: &Self::Fact, b: &Self::Fact) -> bool
        ensures { result ≡ carrying a.now b.now };

    fn always_true(fact: &Self::Fact) -> bool
        ensures { result ≡ certain fact.now };

    // A fact carries itself.
    ghost reflexive: { (a : Self.Fact) → carrying a a ≡ true };

    // What is carried by what is carried is carried.
    ghost transitive: { (a b c : Self.Fact) → carrying a b ≡ true → carrying b c ≡ true → carrying a c ≡ true };
}
