// Texts read by hand, and questions to a short list of facts.
use crate::kinds::Kind;
use crate::listed;
use crate::listed_facts::ListedFacts;
use crate::names::{Names, NoFact};
use crate::plain::Plain;
use crate::sight::Sight;
use sheets::listed::Name;
use std::alloc::{AllocError, Global};
use std::test::Fail;

fn listed_names(heap: Global, texts: &[&[u8]]) -> Result<Vec<Name>, AllocError> {
    texts
        .iter()
        .map(|text| Name::new(heap, *text))
        .try_collect(heap)
}

// Zones scan and div, matters clear and scan.
fn some_names(heap: Global) -> Result<Names, AllocError> {
    Ok(Names {
        zones: listed_names(heap, &[b"scan", b"div"])?,
        matters: listed_names(heap, &[b"clear", b"scan"])?,
    })
}

// What `err` says of a reading, of either kind: a fact, or why there is none.
const FACT: Option<NoFact> = None;

const FORM: Option<NoFact> = Some(NoFact::NotItsForm);

const LIST: Option<NoFact> = Some(NoFact::NotListed);

#[test]
fn texts_are_read(rt: HostRuntime) -> Result<(), Fail> {
    let names = some_names(rt.alloc())?;
    let rows = [
        ("clear", FACT, FACT),
        ("scan", FACT, FACT),
        ("door", LIST, LIST),
        ("all", FORM, FORM),
        ("", FORM, FORM),
        ("scan.clear", FACT, FORM),
        ("scan.scan", FACT, FORM),
        ("all.div.clear", FACT, FORM),
        ("div.scan.div.scan.div.clear", FACT, FORM),
        ("div.scan.div.scan.div.scan.clear", FORM, FORM),
        (".clear", FORM, FORM),
        ("clear.", FORM, FORM),
        ("scan..clear", FORM, FORM),
        ("Scan.clear", FORM, FORM),
        ("scan.Clear", FORM, FORM),
        ("ninebytes.clear", FORM, FORM),
        ("scan.all", FORM, FORM),
        ("crew.clear", LIST, FORM),
        ("scan.door", LIST, FORM),
        ("crew.Clear", FORM, FORM),
    ];
    for (text, sight, plain) in rows {
        assert_eq!(rt; Sight::read(&names, text.as_bytes()).err(), sight);
        assert_eq!(rt; Plain::read(&names, text.as_bytes()).err(), plain);
    }
    Ok(())
}

#[test]
fn facts_are_numbered_and_marked(rt: HostRuntime) -> Result<(), Fail> {
    let names = some_names(rt.alloc())?;
    let all_clear = Sight::read(&names, b"all.clear")?;
    let scan_clear = Sight::read(&names, b"scan.clear")?;
    let clear = Sight::read(&names, b"clear")?;
    let facts = [clear, scan_clear, all_clear];
    let listed_facts = ListedFacts::<Sight> {
        names: &names,
        facts: &facts,
    };
    assert_eq!(rt; listed_facts.number_of(b"scan.clear"), Ok(2));
    assert_eq!(rt;
        listed_facts.number_of(b"div.clear"),
        Err(NoFact::NotListed)
    );
    let mut row = [true, true, false, true];
    listed::mark_carried::<Sight>(&facts, &all_clear, &mut row);
    assert_eq!(rt; row, [false, true, true, true]);
    listed::mark_carriers::<Sight>(&facts, &clear, &mut row);
    assert_eq!(rt; row, [true, false, false, true]);
    Ok(())
}
