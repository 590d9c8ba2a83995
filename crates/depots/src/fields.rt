// The fields of a line, read under what the lines above list.
ghost use Rattle.std.specs.Prelude.{◌≡◌, cond, Some, None};
ghost use Rattle.std.specs.Result.{result_err};
ghost use Rattle.sheets.specs.Names.{is_name};
ghost use Rattle.depots.specs.declared.troubles.Trouble.TheVariants.{NotItsForm, Twice};
ghost use Rattle.depots.specs.Fields.{new_name, new_fact, new_start};
ghost use Rattle.facts.specs.Numbering.{number_under};

use crate::troubles::Trouble;
use facts::kinds::Kind;
use facts::listed::number_of_same;
use facts::listed_facts::ListedFacts;
use sheets::listed::Name;
use sheets::{listed, names};

// The second, third and fourth field of a line. One that the line has not is empty and no option: a letter asks for no field
// that its lines have not.
#[derive(Clone, Copy)]
pub struct Fields<'a> {
    pub second: &'a [u8],
    pub third: &'a [u8],
    pub fourth: &'a [u8],
}

// Whether a text that is to be a name has the form of one. It is asked first, so that no list is looked through for a text
// that is no name.
pub(crate) fn refuse_if_no_name(text: &[u8]) -> Result<(), Trouble>
    ensures { result_err result ≡ cond (is_name text.now) None (Some NotItsForm) }
{
    if names::is_name(text) {
        Ok(())
    } else {
        Err(Trouble::NotItsForm)
    }
}

// Whether a name is listed already. It is told so, since names and moves are lists of two kinds, and a trait for that one
// question would be longer.
pub(crate) fn refuse_if_listed(is_listed: bool) -> Result<(), Trouble>
    ensures { result_err result ≡ cond is_listed (Some Twice) None }
{
    if is_listed {
        Err(Trouble::Twice)
    } else {
        Ok(())
    }
}

// What is wrong with a field that lists a new name, if anything is.
pub fn new_name(listed: &[Name], text: &[u8]) -> Result<(), Trouble>
    ensures { result_err result ≡ new_name listed.now text.now }
{
    refuse_if_no_name(text)?;
    refuse_if_listed(listed::find(listed, text).is_some())
}

// The fact that a field lists anew.
pub fn new_fact<K: Kind>(listed: &ListedFacts<K>, text: &[u8]) -> Result<K::Fact, Trouble>
    ensures { result ≡ new_fact K.alike K.certain (K.reading listed.now.names.now text.now) listed.now.facts.now }
{
    let fact = K::read(listed.names, text)?;
    if number_of_same::<K>(listed.facts, &fact).is_some() {
        return Err(Trouble::Twice);
    }
    if K::always_true(&fact) {
        return Err(Trouble::AlwaysTrue);
    }
    Ok(fact)
}

// The listed fact that a field starts.
pub fn new_start<K: Kind>(
    listed: &ListedFacts<K>,
    started: &[usize],
    text: &[u8],
) -> Result<usize, Trouble>
    ensures { result ≡ new_start (number_under K.Kind listed.now text.now) started.now }
{
    let number = listed.number_of(text)?;
    if started.contains(&number) {
        return Err(Trouble::Twice);
    }
    Ok(number)
}
