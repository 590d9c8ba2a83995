// What the reader of a whole sheet asks of a kind besides: a sheet is text, and must fix its facts.
ghost use Rattle.std.specs.Prelude.{◌≡◌, ℕ, List, Result};
ghost use Rattle.facts.specs.declared.names.Names.{Names};
ghost use Rattle.facts.specs.declared.names.NoFact.{NoFact};
ghost use Rattle.facts.specs.Texts.{Listing, listing_of};

use crate::kinds::Kind;

// A kind by which a text is the same fact under names with the same texts, however the names are kept.
pub trait TextKind: Kind {
    // The fact that a text is under the texts of the listed zones and matters, or why it is none.
    ghost reading_under: { Listing → List ℕ → Result Self.Fact NoFact };

    // Reading goes by those texts alone, and not by the records that keep them.
    ghost goes_by_texts: { (names : Names) → Self.reading names ≡ reading_under (listing_of names) };
}
