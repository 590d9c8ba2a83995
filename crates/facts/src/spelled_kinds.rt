// What a text tells of its fact, where every fact of a kind is spelled by a text of its own.
ghost use Rattle.std.specs.Prelude.{ℕ, List};
ghost use Rattle.facts.specs.Meaning.{AtMost, ReadsBack, Reached, SameByText};
ghost use Rattle.facts.specs.Texts.{Listing};

use crate::text_kinds::TextKind;

// A kind by which texts and facts tell each other, under the same names.
pub trait SpelledKind: TextKind {
    // The text of a fact under the texts of the listed zones and matters.
    ghost spelling_under: { Listing → Self.Fact → List ℕ };

    // A fact gives the text back that it was read from.
    ghost reads_back: { (listing : Listing) → ReadsBack (Self.reading_under listing) (spelling_under listing) };

    // Two texts are the same fact exactly if they are equal.
    ghost same_by_text: { (listing : Listing) → SameByText (Self.reading_under listing) Self.alike };

    // No fact has more watchers than the kind says, and some fact has as many.
    ghost at_most: { (listing : Listing) → AtMost (Self.reading_under listing) Self.MOST_WATCHERS };

    ghost reached: { Reached Self.reading_under Self.MOST_WATCHERS };
}
