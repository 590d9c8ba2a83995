// Where the law meets the kinds of fact.
ghost use Rattle.std.specs.Prelude.{◌≡◌, List, length};
ghost use Rattle.walkthroughs.specs.Depots.{Depot, Carrying};
ghost use Rattle.walkthroughs.specs.Kinds.{carries_among};

use facts::kinds::Kind;

// Carrying among listed facts of a kind, by number, is what the law asks of carrying, whatever the kind.
pub fn kinds_carry_as_the_law_asks<K: Kind>()
    ensures { (facts : List K.Fact) (d : Depot) → d.facts ≡ length facts → d.carries ≡ carries_among K.carrying facts → Carrying d }
{}
