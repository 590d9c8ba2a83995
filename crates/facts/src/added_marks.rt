// Marks that are added to a row, by what a fact carries and by what carries it.
ghost use Rattle.std.specs.Prelude.{◌≡◌};
ghost use Rattle.facts.specs.Listed.{also_marked};

use crate::kinds::Kind;
use crate::marks::remark;

// Marks the listed facts that a fact carries, as far as the row reaches; other marks stay.
pub fn add_carried<K: Kind>(facts: &[K::Fact], fact: &K::Fact, row: &mut [bool])
    ensures { row.new ≡ also_marked (λ listed. K.carrying fact.now listed) facts.now row.old }
{
    remark(facts, row, |mark, listed| mark | K::carries(fact, listed));
}

// Marks the listed facts that carry a fact, as far as the row reaches; other marks stay.
pub fn add_carriers<K: Kind>(facts: &[K::Fact], fact: &K::Fact, row: &mut [bool])
    ensures { row.new ≡ also_marked (λ listed. K.carrying listed fact.now) facts.now row.old }
{
    remark(facts, row, |mark, listed| mark | K::carries(listed, fact));
}
