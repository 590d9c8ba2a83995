// Fields of settings and strikes under a plain sheet with the matters a, b and c, of which a and b are listed facts.
use depots::settings::fact_list;
use depots::troubles::Trouble;
use facts::listed_facts::ListedFacts;
use facts::names::Names;
use facts::plain::{Plain, PlainFact};
use sheets::listed::Name;
use std::test::Fail;

// What is read of a field: how many facts it lists, or its trouble.
fn read(listed: &ListedFacts<Plain>, text: &[u8]) -> Result<usize, Trouble> {
    let list = fact_list(listed, text)?;
    Ok(list.numbers().len())
}

// A field, and how many facts it lists or its trouble.
const ROWS: &[(&[u8], Result<usize, Trouble>)] = &[
    (b"-", Ok(0)),
    (b"a", Ok(1)),
    (b"b,a", Ok(2)),
    (b"a,a", Err(Trouble::Twice)),
    (b"a,b,a", Err(Trouble::Twice)),
    (b"c", Err(Trouble::NotListed)),
    (b"a,d", Err(Trouble::NotListed)),
    (b"a,", Err(Trouble::NotItsForm)),
    (b"-,a", Err(Trouble::NotItsForm)),
    (b"", Err(Trouble::NotItsForm)),
    // a part that has not its form is told before one that is not listed, and both before a repeat
    (b"c,A", Err(Trouble::NotItsForm)),
    (b"a,a,c", Err(Trouble::NotListed)),
    // eight parts are read, nine are not
    (b"a,a,a,a,a,a,a,a", Err(Trouble::Twice)),
    (b"a,a,a,a,a,a,a,a,a", Err(Trouble::NotItsForm)),
];

#[test]
fn lists_of_facts(rt: HostRuntime) -> Result<(), Fail> {
    let heap = rt.alloc();
    let matters = [b"a", b"b", b"c"]
        .iter()
        .map(|matter| Name::new(heap, *matter))
        .try_collect(heap)?;
    let names = Names {
        zones: Vec::new(heap),
        matters,
    };
    let facts = [PlainFact { matter: 0 }, PlainFact { matter: 1 }];
    let listed = ListedFacts {
        names: &names,
        facts: &facts,
    };
    for (text, told) in ROWS {
        assert_eq!(rt; read(&listed, text), *told, "{text:?}");
    }
    Ok(())
}
