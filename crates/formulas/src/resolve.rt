// A formula over texts as one over the numbers of listed facts.
ghost use Rattle.std.specs.Prelude.{◌≡◌};
ghost use Rattle.formulas.specs.declared.resolve.Unresolved.TheVariants.{NoFact, NoMemory};
ghost use Rattle.formulas.specs.Resolving.{each_passes, is_listed, Numbers, Resolves, Tests};
ghost use Rattle.facts.specs.Numbering.{has_form, number_under};
ghost use Rattle.std.specs.Fn.{FnReturnsAt};
ghost use Rattle.formulas.specs.Shapes.{texted};

use crate::tree::Formula;
use facts::kinds::Kind;
use facts::listed_facts::ListedFacts;
use facts::names::NoFact;
use std::alloc::{AllocError, AllocFailed, Global};

// Why a formula is none over the listed facts: what is wrong with a fact of it, or that an allocation failed.
#[derive(Clone, Copy, Debug, PartialEq, Eq)]
pub enum Unresolved {
    NoFact(NoFact),
    NoMemory,
}

impl From<NoFact> for Unresolved {
    ghost from_gives = { λ why r. r ≡ NoFact why };

    fn from(why: NoFact) -> Unresolved {
        Unresolved::NoFact(why)
    }
}

impl From<AllocError> for Unresolved {
    ghost from_gives = { λ _ r. r ≡ NoMemory };

    fn from(_: AllocError) -> Unresolved {
        Unresolved::NoMemory
    }
}

impl<T: Drop> From<AllocFailed<T>> for Unresolved {
    ghost from_gives = { λ _ r. r ≡ NoMemory };

    fn from(_: AllocFailed<T>) -> Unresolved {
        Unresolved::NoMemory
    }
}

// Whether every fact of a formula passes a test.
fn each_passes<T: Fn(&[u8]) -> bool>(formula: &Formula<&[u8]>, test: &T) -> bool
    requires { T.IsAlwaysCallable test.now }
    ensures { Tests (FnReturnsAt T.Fn test.now) (texted formula.now) result }
{
    match formula {
        Formula::Fact(text) => test(text),
        Formula::Not(inner) => each_passes(inner, test),
        Formula::All(inner) => inner.iter().all(
            |one|
                requires { T.IsAlwaysCallable test.now }
                ensures { Tests (FnReturnsAt T.Fn test.entry.now) (texted one.now) result }
            { each_passes(one, test) },
        ),
    }
}

// Whether every fact of a formula has the form of one, be it listed or not.
fn all_formed<K: Kind>(listed: &ListedFacts<K>, formula: &Formula<&[u8]>) -> bool
    ensures { result ≡ each_passes (λ text. has_form (number_under K.Kind listed.now text)) (texted formula.now) }
{
    each_passes(formula, &|text: &[u8]| listed.has_form(text))
}

// Whether every fact of a formula is listed.
fn all_listed<K: Kind>(listed: &ListedFacts<K>, formula: &Formula<&[u8]>) -> bool
    ensures { result ≡ each_passes (λ text. is_listed (number_under K.Kind listed.now text)) (texted formula.now) }
{
    each_passes(formula, &|text: &[u8]| listed.number_of(text).is_ok())
}

// A formula with the number of each fact, or a fault of some fact.
fn numbers<K: Kind>(
    heap: Global,
    listed: &ListedFacts<K>,
    formula: &Formula<&[u8]>,
) -> Result<Formula<usize>, Unresolved>
    ensures { Numbers (number_under K.Kind listed.now) (texted formula.now) result }
{
    match formula {
        Formula::Fact(text) => Ok(Formula::Fact(listed.number_of(text)?)),
        Formula::Not(inner) => {
            let numbered = numbers(heap, listed, inner)?;
            Ok(Formula::Not(Box::new(heap, numbered)?))
        }
        Formula::All(inner) => {
            let mut all: Vec<Formula<usize>> = inner
                .iter()
                .map(
                    |one|
                        ensures { Numbers (number_under K.Kind listed.entry.now) (texted one.now) result }
                    { numbers(heap, listed, one) },
                )
                .try_collect(heap)?;
            // A sheet's formulas are kept, and a row that grew has more room than it needs.
            all.shrink_to_fit();
            Ok(Formula::All(all))
        }
    }
}

// The formula over fact numbers that a formula over texts is. The form of every fact is judged before any is told as not
// listed.
pub fn resolve<K: Kind>(
    heap: Global,
    listed: &ListedFacts<K>,
    formula: &Formula<&[u8]>,
) -> Result<Formula<usize>, Unresolved>
    ensures { Resolves (number_under K.Kind listed.now) (texted formula.now) result }
{
    if !all_formed(listed, formula) {
        return Err(Unresolved::NoFact(NoFact::NotItsForm));
    }
    match numbers(heap, listed, formula) {
        // A fact that is not listed is told so, whatever room there is.
        Err(Unresolved::NoMemory) if !all_listed(listed, formula) => {
            Err(Unresolved::NoFact(NoFact::NotListed))
        }
        told => told,
    }
}
