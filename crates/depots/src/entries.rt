// What a line adds to the tables of a depot: names, facts and started facts. A refusal leaves them as they were.
ghost use Rattle.std.specs.Prelude.{◌≡◌, ℕ, false, [], ◌∷◌, ◌++◌, map, Ok, vec_len, nat_le};
ghost use Rattle.std.specs.Result.{result_err};
ghost use Rattle.depots.specs.Entries.{Taken};
ghost use Rattle.depots.specs.Fields.{new_name, new_fact, new_start};
ghost use Rattle.facts.specs.Numbering.{number_under};

use crate::fields::{new_fact, new_name, new_start};
use crate::troubles::{only, refuse_if_full};
use facts::kinds::Kind;
use facts::listed_facts::ListedFacts;
use facts::names::Names;
use sheets::listed::Name;
use sheets::refusals::Refusal;
use std::alloc::Global;

// Lists a new name, of which there may be so many at the most.
pub fn list_name(
    heap: Global,
    names: &mut Vec<Name>,
    most: usize,
    text: &[u8],
) -> Result<(), Refusal>
    ensures { Taken (new_name names.old.items text.now ∷ []) (nat_le most (vec_len names.old)) (names.new.items ≡ names.old.items ++ text.now ∷ []) (names.new.items ≡ names.old.items) result }
{
    new_name(names, text).map_err(only)?;
    refuse_if_full(names.len() >= most)?;
    names.push(Name::new(heap, text)?)?;
    Ok(())
}

// The most facts that a sheet lists.
pub const MOST_FACTS: usize = 128;

// Lists a new fact, with its text beside it. Names, facts and texts come one by one: by a public method of a depot
// any caller could fill it without its reader.
pub fn list_fact<K: Kind>(
    heap: Global,
    names: &Names,
    facts: &mut Vec<K::Fact>,
    texts: &mut Vec<Name>,
    text: &[u8],
) -> Result<(), Refusal>
    ensures { Taken (result_err (new_fact K.alike K.certain (K.reading names.now text.now) facts.old.items) ∷ []) (nat_le 128 (vec_len facts.old)) ((f : K.Fact) × (new_fact K.alike K.certain (K.reading names.now text.now) facts.old.items ≡ Ok f) × (facts.new.items ≡ facts.old.items ++ f ∷ []) × (texts.new.items ≡ texts.old.items ++ text.now ∷ [])) ((facts.new.items ≡ facts.old.items) × (texts.new.items ≡ texts.old.items)) result }
{
    let listed = ListedFacts::<K> {
        names,
        facts: facts.as_slice(),
    };
    let fact = new_fact(&listed, text).map_err(only)?;
    refuse_if_full(facts.len() >= MOST_FACTS)?;
    let name = Name::new(heap, text)?;
    texts.reserve(1)?;
    facts.push(fact)?;
    texts.push(name).unwrap();
    Ok(())
}

// Starts a listed fact.
pub fn start_fact<K: Kind>(
    listed: &ListedFacts<K>,
    started: &mut Vec<usize>,
    text: &[u8],
) -> Result<(), Refusal>
    ensures { Taken (result_err (new_start (number_under K.Kind listed.now text.now) started.old.items) ∷ []) false ((n : ℕ) × (new_start (number_under K.Kind listed.now text.now) started.old.items ≡ Ok n) × (started.new.items ≡ started.old.items ++ n ∷ [])) (started.new.items ≡ started.old.items) result }
{
    let number = new_start(listed, started, text).map_err(only)?;
    started.push(number)?;
    Ok(())
}
