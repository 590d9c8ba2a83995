// What is asked of the facts that a sheet lists, whatever their kind.
ghost use Rattle.std.specs.Prelude.{◌≡◌, ◌<◌, position, length, IfSome};
ghost use Rattle.sheets.specs.Listed.{first_from};
ghost use Rattle.facts.specs.Listed.{marked};

use crate::kinds::Kind;
use crate::marks::remark;

// The place, counted from 0, of the first listed fact that is the same: with its bound, so that one can be added to it.
fn place_of_same<K: Kind>(facts: &[K::Fact], fact: &K::Fact) -> Option<usize>
    ensures place { result ≡ position (K.alike fact.now) facts.now }
    ensures within { IfSome result (λ place. place < length facts.now) }
{
    facts.iter().position(|listed| K::same(fact, listed))
}

// The number, counted from 1, of the first listed fact that is the same.
#[tactic(auto, using(crate::proofs::Numbered::no_number, crate::proofs::Numbered::number_at))]
pub fn number_of_same<K: Kind>(facts: &[K::Fact], fact: &K::Fact) -> Option<usize>
    ensures { result ≡ first_from (K.alike fact.now) 1 facts.now }
{
    place_of_same::<K>(facts, fact).map(|place| place + 1)
}

// Marks which listed facts a fact carries, as far as the row reaches; the rest of the row stays.
pub fn mark_carried<K: Kind>(facts: &[K::Fact], fact: &K::Fact, row: &mut [bool])
    ensures { row.new ≡ marked (λ listed. K.carrying fact.now listed) facts.now row.old }
{
    remark(facts, row, |_, listed| K::carries(fact, listed));
}

// Marks which listed facts carry a fact, as far as the row reaches; the rest of the row stays.
pub fn mark_carriers<K: Kind>(facts: &[K::Fact], fact: &K::Fact, row: &mut [bool])
    ensures { row.new ≡ marked (λ listed. K.carrying listed fact.now) facts.now row.old }
{
    remark(facts, row, |_, listed| K::carries(listed, fact));
}
