// Formulas read by hand: how large they are, what they come to over listed facts, and when they are true.
use crate::resolve::Unresolved;
use crate::tree::Unread;
use crate::{reading, resolve, size, truth};
use facts::kinds::Kind;
use facts::listed_facts::ListedFacts;
use facts::names::{Names, NoFact};
use facts::plain::{Plain, PlainFact};
use sheets::listed::Name;
use std::alloc::Global;
use std::test::Fail;

// The size of the formula that a text is.
fn size_of(heap: Global, text: &str) -> Result<usize, Unread> {
    let formula = reading::read(heap, text.as_bytes())?;
    Ok(size::size(&formula))
}

#[test]
fn texts_are_formulas_or_not(rt: HostRuntime) -> Result<(), Fail> {
    let rows = [
        ("", Err(Unread::NotItsForm)),
        ("a", Ok(1)),
        ("all.scan.clear", Ok(1)),
        ("()", Ok(1)),
        ("!()", Ok(2)),
        ("(a)", Ok(2)),
        ("((a))", Ok(3)),
        ("(a&b)", Ok(3)),
        ("(a&!b&())", Ok(5)),
        ("(a&)", Err(Unread::NotItsForm)),
        ("(&a)", Err(Unread::NotItsForm)),
        ("(&)", Err(Unread::NotItsForm)),
        ("(a&&b)", Err(Unread::NotItsForm)),
        ("!", Err(Unread::NotItsForm)),
        ("a!", Err(Unread::NotItsForm)),
        ("(a", Err(Unread::NotItsForm)),
        ("a)", Err(Unread::NotItsForm)),
        ("a&b", Err(Unread::NotItsForm)),
        ("()a", Err(Unread::NotItsForm)),
        ("(a)(b)", Err(Unread::NotItsForm)),
        ("a(b)", Err(Unread::NotItsForm)),
        ("!!!!!!!!a", Ok(9)),
        ("!!!!!!!!!a", Err(Unread::NotItsForm)),
        ("((((((((a))))))))", Ok(9)),
        ("(((((((((a)))))))))", Err(Unread::NotItsForm)),
        ("(((((((())))))))", Ok(8)),
        ("((((((((()))))))))", Err(Unread::NotItsForm)),
        ("!(!(!(!(a))))", Ok(9)),
        ("(a&!(!(!(!(!a)))))", Err(Unread::NotItsForm)),
    ];
    for (text, size) in rows {
        assert_eq!(rt; size_of(rt.alloc(), text), size, "{}", text);
    }
    Ok(())
}

// What a formula comes to over two listed facts, a and b, of which only a stands.
#[test]
fn formulas_come_true(rt: HostRuntime) -> Result<(), Fail> {
    let heap = rt.alloc();
    let matters = [b"a", b"b"]
        .iter()
        .map(|matter| Name::new(heap, *matter))
        .try_collect(heap)?;
    let names = Names {
        zones: Vec::new(heap),
        matters,
    };
    let facts = [PlainFact { matter: 0 }, PlainFact { matter: 1 }];
    let listed: ListedFacts<Plain> = ListedFacts {
        names: &names,
        facts: &facts,
    };
    let rows = [
        ("a", Ok(true)),
        ("b", Ok(false)),
        ("!b", Ok(true)),
        ("()", Ok(true)),
        ("!()", Ok(false)),
        ("(a&!b)", Ok(true)),
        ("(a&b)", Ok(false)),
        ("!(a&b)", Ok(true)),
        ("(a&c)", Err(Unresolved::NoFact(NoFact::NotListed))),
        ("(c&!A)", Err(Unresolved::NoFact(NoFact::NotItsForm))),
    ];
    for (text, expected) in rows {
        let formula = reading::read(heap, text.as_bytes())?;
        let came = resolve::resolve(heap, &listed, &formula).map(|numbered| truth::truth(
            &numbered,
            &[true, false],
        ));
        assert_eq!(rt; came, expected, "{}", text);
    }
    Ok(())
}
