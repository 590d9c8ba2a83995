// Calls on walkthroughs with the answers that the rules give, worked out by hand.
use crate::replies::Reply::{Changed, Refused, Told};
use crate::replies::{Reply, changed, told};
use depots::depot::Depot;
use facts::plain::Plain;
use facts::sight::Sight;
use facts::text_kinds::TextKind;
use sheets::faults::Fault;
use sheets::refusals::Refusal;
use std::alloc::{AllocError, Global};
use std::process::Abort;
use std::test::Fail;
use walkthroughs::exchange::Call::{Look, Step, Truth};
use walkthroughs::exchange::{Call, Exchange};
use walkthroughs::run::run;
use walkthroughs::walkthrough::Walkthrough;

// Calls on a new walkthrough, each with its answer.
type Row = &'static [(Call<'static>, Reply)];

// Facts: 1 clear, 2 scan.clear, 3 div.clear, 4 all.clear, 5 count. Moves: 1 tell, 2 call, 3 reset, 4 jam. Formula 9 is the goal.
const SEEN: &str =
    "K\tsight\nZ\tscan\nZ\tdiv\nP\tclear\nP\tcount\nF\tclear\nF\tscan.clear\nF\tdiv.clear\nF\tall.clear\nF\tcount\nI\tclear\nI\tscan.clear\nM\ttell\t(clear&scan.clear)\nE\t()\tdiv.clear\t-\nM\tcall\tscan.clear\nE\t()\tall.clear\t-\nM\treset\t(clear&div.clear)\nE\t()\tcount\t-\nM\tjam\t()\nE\t()\t-\tclear,scan.clear\nG\tcount\n";

const SEEN_ROWS: &[Row] = &[
    &[],
    &[
        (Look(1), Told(true)),
        (Look(2), Told(true)),
        (Look(3), Told(false)),
        (Look(4), Told(false)),
        (Look(5), Told(false)),
    ],
    &[
        (Step(&[1]), Changed(1)),
        (Look(3), Told(true)),
        (Step(&[1]), Changed(0)),
        (Step(&[3]), Changed(1)),
        (Truth(9), Told(true)),
    ],
    &[
        (Step(&[2]), Changed(2)),
        (Look(3), Told(true)),
        (Look(4), Told(true)),
        (Look(5), Told(false)),
    ],
    &[
        (Step(&[2]), Changed(2)),
        (Step(&[4]), Changed(3)),
        (Look(1), Told(false)),
        (Look(2), Told(false)),
        (Look(3), Told(true)),
        (Look(4), Told(false)),
    ],
    // a refused step leaves all as it was, and the next goes on from there
    &[
        (Step(&[1, 3]), Refused(14, [2, 0, 0, 0])),
        (Look(3), Told(false)),
        (Step(&[2, 4]), Refused(15, [1, 1, 2, 1])),
        (Step(&[4, 2]), Refused(15, [2, 1, 1, 1])),
        (Step(&[1, 4]), Refused(16, [2, 1, 0, 0])),
        (Step(&[4, 1]), Refused(16, [1, 2, 0, 0])),
        (Look(1), Told(true)),
        (Look(2), Told(true)),
        (Step(&[1]), Changed(1)),
    ],
    // how many moves, then which are listed, then which are there twice, then their needs
    &[
        (Step(&[]), Refused(11, [0, 0, 0, 0])),
        (
            Step(&[0, 0, 0, 0, 0, 0, 0, 0, 0]),
            Refused(11, [0, 0, 0, 0]),
        ),
        (Step(&[0]), Refused(12, [1, 0, 0, 0])),
        (Step(&[3, 5]), Refused(12, [2, 0, 0, 0])),
        (Step(&[3, 3, 5, 0]), Refused(12, [3, 0, 0, 0])),
        (Step(&[1, 18446744073709551615]), Refused(12, [2, 0, 0, 0])),
        (Step(&[3, 3]), Refused(13, [2, 0, 0, 0])),
        (Step(&[1, 2, 2, 1]), Refused(13, [3, 0, 0, 0])),
        (Step(&[3, 4]), Refused(14, [1, 0, 0, 0])),
    ],
    // numbers are counted from 1
    &[
        (Look(0), Refused(18, [0, 0, 0, 0])),
        (Look(6), Refused(18, [0, 0, 0, 0])),
        (Look(18446744073709551615), Refused(18, [0, 0, 0, 0])),
        (Truth(0), Refused(18, [0, 0, 0, 0])),
        (Truth(1), Told(true)),
        (Truth(2), Told(true)),
        (Truth(5), Told(false)),
        (Truth(9), Told(false)),
        (Truth(10), Refused(18, [0, 0, 0, 0])),
    ],
];

// Facts: 1 a, 2 b, 3 c. Moves: 1 m1, 2 m2, 3 m3, 4 t, 5 u, and six more that do nothing.
const TOGGLED: &str =
    "K\tplain\nP\ta\nP\tb\nP\tc\nF\ta\nF\tb\nF\tc\nM\tm1\t()\nE\t()\ta\t-\nM\tm2\t()\nE\t()\tb\t-\nM\tm3\t()\nE\t(a&b)\tc\t-\nM\tt\t()\nE\ta\t-\ta\nE\t!a\ta\t-\nM\tu\t()\nE\ta\t-\ta\nE\t!a\ta\t-\nM\tn1\t()\nM\tn2\t()\nM\tn3\t()\nM\tn4\t()\nM\tn5\t()\nM\tn6\t()\nG\t()\n";

const TOGGLED_ROWS: &[Row] = &[
    &[(Step(&[1, 2]), Changed(2)), (Step(&[3]), Changed(1))],
    // three are disturbed where each two are not
    &[
        (Step(&[1, 2, 3]), Refused(16, [3, 3, 1, 0])),
        (Step(&[3, 1, 2]), Refused(16, [6, 1, 1, 0])),
        (Step(&[1, 3]), Changed(1)),
    ],
    &[
        (Step(&[4, 5]), Refused(16, [1, 2, 1, 0])),
        (Step(&[4]), Changed(1)),
        (Step(&[5]), Changed(1)),
        (Look(1), Told(false)),
    ],
    // eight moves are a step, nine are none
    &[
        (Step(&[1, 2, 6, 7, 8, 9, 10, 11]), Changed(2)),
        (
            Step(&[1, 2, 6, 7, 8, 9, 10, 11, 4]),
            Refused(11, [0, 0, 0, 0]),
        ),
    ],
];

fn depot_of<K: TextKind>(rt: &impl Abort, heap: Global, sheet: &str) -> Depot<K> {
    let mut depot = Depot::empty(heap);
    assert!(rt; depot.read(heap, sheet.as_bytes()).is_ok());
    depot
}

// The calls of a row, with no answers yet.
fn exchanges_of(heap: Global, row: Row) -> Result<Vec<Exchange<'static>>, AllocError> {
    let mut exchanges = Vec::new(heap);
    for (call, _) in row {
        exchanges.push(Exchange {
            call: *call,
            answer: None,
        })?;
    }
    Ok(exchanges)
}

// Sends the calls of a row, and compares each answer.
fn check_row<K: TextKind>(
    rt: &impl Abort,
    heap: Global,
    depot: &Depot<K>,
    row: Row,
) -> Result<(), Fail> {
    let mut exchanges = exchanges_of(heap, row)?;
    assert!(rt; run(depot, &mut exchanges).is_ok());
    for (exchange, (_, reply)) in exchanges.iter().zip(row) {
        assert_eq!(rt; exchange.answer.map(Reply::from), Some(*reply));
    }
    Ok(())
}

fn check_rows<K: TextKind>(
    rt: &impl Abort,
    heap: Global,
    depot: &Depot<K>,
    rows: &[Row],
) -> Result<(), Fail> {
    for row in rows {
        check_row(rt, heap, depot, row)?;
    }
    Ok(())
}

#[test]
fn calls_of_one_walkthrough(rt: HostRuntime) -> Result<(), Fail> {
    let heap = rt.alloc();
    let seen: Depot<Sight> = depot_of(&rt, heap, SEEN);
    check_rows(&rt, heap, &seen, SEEN_ROWS)?;
    let toggled: Depot<Plain> = depot_of(&rt, heap, TOGGLED);
    check_rows(&rt, heap, &toggled, TOGGLED_ROWS)
}

// Fact 1 is a. Move 1 sets it and move 2, which needs it, strikes it. Formula 5 is the goal.
const SMALL: &str =
    "K\tplain\nP\ta\nF\ta\nM\tset\t()\nE\t()\ta\t-\nM\tstrike\ta\nE\t()\t-\ta\nG\ta\n";

const NOT_LISTED: Reply = Refused(18, [0, 0, 0, 0]);

// A walkthrough is shown a depot that lists fewer facts than the one it was made of.
#[test]
fn calls_with_fewer_facts(rt: HostRuntime) -> Result<(), Fail> {
    let heap = rt.alloc();
    let seen: Depot<Sight> = depot_of(&rt, heap, SEEN);
    let small: Depot<Plain> = depot_of(&rt, heap, SMALL);
    let Ok(mut walkthrough) = Walkthrough::make(&seen) else {
        assert!(&rt; false);
        return Ok(());
    };
    assert_eq!(&rt; told(walkthrough.look(&small, 1)), Told(true));
    assert_eq!(&rt; told(walkthrough.look(&small, 2)), NOT_LISTED);
    assert_eq!(&rt; told(walkthrough.truth(&small, 5)), Told(true));
    assert_eq!(&rt; changed(walkthrough.step(&small, &[2])), Changed(1));
    assert_eq!(&rt;
        changed(walkthrough.step(&small, &[2])),
        Refused(14, [1, 0, 0, 0])
    );
    // fact 2, which the small depot does not list, stands as before
    assert_eq!(&rt; told(walkthrough.look(&seen, 1)), Told(false));
    assert_eq!(&rt; told(walkthrough.look(&seen, 2)), Told(true));
    Ok(())
}

// It is shown one that lists more.
#[test]
fn calls_with_more_facts(rt: HostRuntime) -> Result<(), Fail> {
    let heap = rt.alloc();
    let seen: Depot<Sight> = depot_of(&rt, heap, SEEN);
    let small: Depot<Plain> = depot_of(&rt, heap, SMALL);
    let Ok(mut walkthrough) = Walkthrough::make(&small) else {
        assert!(&rt; false);
        return Ok(());
    };
    assert_eq!(&rt;
        changed(walkthrough.step(&seen, &[2])),
        Refused(14, [1, 0, 0, 0])
    );
    assert_eq!(&rt; changed(walkthrough.step(&seen, &[4])), Changed(0));
    assert_eq!(&rt; changed(walkthrough.step(&small, &[1])), Changed(1));
    assert_eq!(&rt; told(walkthrough.look(&seen, 1)), Told(true));
    Ok(())
}

// It is shown an empty one.
#[test]
fn calls_with_no_facts(rt: HostRuntime) -> Result<(), Fail> {
    let heap = rt.alloc();
    let seen: Depot<Sight> = depot_of(&rt, heap, SEEN);
    let empty: Depot<Plain> = Depot::empty(heap);
    let Ok(mut walkthrough) = Walkthrough::make(&seen) else {
        assert!(&rt; false);
        return Ok(());
    };
    assert_eq!(&rt; told(walkthrough.look(&empty, 1)), NOT_LISTED);
    assert_eq!(&rt; told(walkthrough.truth(&empty, 1)), NOT_LISTED);
    assert_eq!(&rt;
        changed(walkthrough.step(&empty, &[])),
        Refused(11, [0, 0, 0, 0])
    );
    assert_eq!(&rt;
        changed(walkthrough.step(&empty, &[1])),
        Refused(12, [1, 0, 0, 0])
    );
    Ok(())
}

// Of an empty depot no walkthrough is made, and no call is answered.
#[test]
fn calls_on_an_empty_depot(rt: HostRuntime) -> Result<(), Fail> {
    let heap = rt.alloc();
    let empty: Depot<Sight> = Depot::empty(heap);
    let mut exchanges = [Exchange {
        call: Look(1),
        answer: None,
    }];
    let refused = run(&empty, &mut exchanges).err();
    assert!(&rt;
        matches!(
            refused,
            Some(Fault {
                sheet: None,
                line: 0,
                refusal: Refusal::NoGoal
            })
        )
    );
    assert!(&rt; exchanges[0].answer.is_none());
    Ok(())
}
