// How a field of settings or strikes is read.
ghost use Rattle.std.specs.Prelude.{◌≡◌, ◌≤◌, [], map, length, Err};
ghost use Rattle.std.specs.List.{list_all};
ghost use Rattle.std.specs.Option.{option_map};
ghost use Rattle.depots.specs.Settings.{count_of, numbers_of, Comes, repeats, joined_to, gathered, list_reading};
ghost use Rattle.facts.specs.Numbering.{has_form, number_under};
ghost use Rattle.sheets.specs.Pieces.{pieces, following};

use crate::fact_list::{FactList, MOST};
use crate::troubles::Trouble;
use facts::kinds::Kind;
use facts::listed_facts::ListedFacts;
use facts::names::NoFact;
use facts::short_list::ShortList;
use sheets::pieces;

const COMMA: u8 = b',';

impl FactList {
    // No fact.
    pub fn none() -> FactList
        ensures numbers { numbers_of result ≡ [] }
        ensures count { count_of result ≡ 0 }
    {
        FactList {
            kept: ShortList::none(0),
        }
    }

    // The numbers, in their order.
    pub fn numbers(&self) -> &[usize]
        ensures { result.now ≡ numbers_of self.now }
    {
        self.kept.entries()
    }
}

// Whether a number is twice in a row of them. A step asks where its first repeat is, by a chain of its own.
fn has_repeat(numbers: &[usize]) -> bool
    ensures { result ≡ repeats numbers.now }
{
    numbers
        .iter()
        .enumerate()
        .any(|(i, number)| numbers[i + 1..].contains(number))
}

// Whether each part between the commas of a text has the form of a fact, be it listed or not.
fn all_formed<K: Kind>(listed: &ListedFacts<K>, text: &[u8]) -> bool
    ensures { result ≡ list_all (λ part. has_form (number_under K.Kind listed.now part)) (pieces 44 text.now) }
{
    text.split(|b| *b == COMMA)
        .all(|part| listed.has_form(part))
}

// What is told of a list for the first part of it that is no listed fact, by what stands behind that part: a part that has
// not its form is told before one that is not listed.
fn told<K: Kind>(listed: &ListedFacts<K>, why: NoFact, behind: Option<&[u8]>) -> Trouble
    ensures { Err result ≡ joined_to (Err why) (gathered (map (number_under K.Kind listed.now) (following 44 (option_map (λ x. x.now) behind.entry)))) }
{
    match (why, behind) {
        (NoFact::NotItsForm, _) => Trouble::NotItsForm,
        (NoFact::NotListed, Some(parts)) if !all_formed(listed, parts) => Trouble::NotItsForm,
        (NoFact::NotListed, _) => Trouble::NotListed,
    }
}

// The numbers of the facts that stand between the commas of a text. Each part is looked up once. The text is cut by hand: of
// a `for` over `split`, in a function with a type parameter, the check refuses a module that it made itself.
fn gather<K: Kind>(listed: &ListedFacts<K>, text: &[u8]) -> Result<FactList, Trouble>
    requires { length (pieces 44 text.now) ≤ 8 }
    ensures { Comes (gathered (map (number_under K.Kind listed.now) (pieces 44 text.now))) result }
{
    let mut list = FactList::none();
    let mut rest = Some(text);
    while let Some(more) = rest {
        let (part, after) = pieces::cut(more, COMMA);
        match listed.number_of(part) {
            Ok(number) => list.kept.push(number).unwrap(),
            Err(why) => return Err(told(listed, why, after)),
        }
        rest = after;
    }
    Ok(list)
}

// The facts that a field of settings or strikes lists.
pub fn fact_list<K: Kind>(listed: &ListedFacts<K>, text: &[u8]) -> Result<FactList, Trouble>
    ensures { Comes (list_reading (number_under K.Kind listed.now) text.now) result }
{
    if text == b"-".as_slice() {
        return Ok(FactList::none());
    }
    if !pieces::has_at_most(text, COMMA, MOST) {
        return Err(Trouble::NotItsForm);
    }
    let list = gather(listed, text)?;
    if has_repeat(list.numbers()) {
        return Err(Trouble::Twice);
    }
    Ok(list)
}
