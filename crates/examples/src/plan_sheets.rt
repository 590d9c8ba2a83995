// Plan sheets with what the rules say of each, worked out by hand: the moves of each step, by their numbers, or the line,
// the number and the field of the refusal, 0 where unused.
use crate::verdicts::Verdict;
use depots::depot::Depot;
use facts::plain::Plain;
use plans::plan_reader::read_plan;
use sheets::faults::{Fault, Sheet};
use sheets::refusals::Refusal;
use std::alloc::{AllocError, Global};
use std::process::Abort;
use std::test::Fail;

// What is told of a sheet.
type Told = Result<&'static [&'static [usize]], (usize, u8, usize)>;

// A sheet, and what is told of it.
type Row = (&'static [u8], Told);

// The moves a to h, and one whose name is as long as a name may be. The matter p is no move.
const MOVES: &str =
    "K\tplain\nP\tp\nM\ta\t()\nM\tb\t()\nM\tc\t()\nM\td\t()\nM\te\t()\nM\tf\t()\nM\tg\t()\nM\th\t()\nM\tlongname\t()\nG\t()\n";

fn depot_of(rt: &impl Abort, heap: Global, sheet: &str) -> Depot<Plain> {
    let mut depot = Depot::empty(heap);
    assert!(rt; depot.read(heap, sheet.as_bytes()).is_ok());
    depot
}

// What is told of a plan sheet. That memory was wanting fails the test and is no verdict.
fn check_plan(
    rt: &impl Abort,
    heap: Global,
    depot: &Depot<Plain>,
    sheet: &[u8],
    told: Told,
) -> Result<(), Fail> {
    match (read_plan(heap, depot, sheet), told) {
        (Ok(plan), Ok(steps)) => {
            assert_eq!(rt; plan.steps().len(), steps.len(), "{sheet:?}");
            for (step, moves) in plan.steps().iter().zip(steps) {
                assert_eq!(rt; step.moves(), *moves, "{sheet:?}");
            }
        }
        (
            Err(
                Fault {
                    refusal: Refusal::NoMemory,
                    ..
                },
            ),
            _,
        ) => return Err(AllocError.into()),
        (Err(fault), Err(refused)) => {
            assert!(rt; matches!(fault.sheet, Some(Sheet::Plan)), "{sheet:?}");
            assert_eq!(rt; Verdict::from(fault), Verdict::from(refused), "{sheet:?}");
        }
        (Ok(_), Err(_)) => assert!(rt; false, "read: {sheet:?}"),
        (Err(fault), Ok(_)) => assert!(rt;
            false,
            "refused by {}: {sheet:?}",
            fault.refusal.number()
        ),
    }
    Ok(())
}

const ROWS: &[Row] = &[
    // no lines is a plan too
    (b"", Ok(&[])),
    (b"a\n", Ok(&[&[1]])),
    (b"b\ta\n", Ok(&[&[2, 1]])),
    (b"a\na\tb\na\n", Ok(&[&[1], &[1, 2], &[1]])),
    (b"longname\n", Ok(&[&[9]])),
    // eight moves pass, nine are 4 whatever they are
    (
        b"h\tg\tf\te\td\tc\tb\ta\n",
        Ok(&[&[8, 7, 6, 5, 4, 3, 2, 1]]),
    ),
    (b"a\tb\tc\td\te\tf\tg\th\tlongname\n", Err((1, 4, 0))),
    (b"a\ta\tA\t\tx\tall\tp\ta\ta\n", Err((1, 4, 0))),
    (b"\t\t\t\t\t\t\t\t\n", Err((1, 4, 0))),
    (b"\t\t\t\t\t\t\t\n", Err((1, 5, 1))),
    // an empty line has one empty field
    (b"\n", Err((1, 5, 1))),
    (b"a\n\n", Err((2, 5, 1))),
    // an unfinished last line, before anything else on it
    (b"a", Err((1, 2, 0))),
    (b"a\nb", Err((2, 2, 0))),
    (b"a\nA\tA", Err((2, 2, 0))),
    (b"\t\t\t\t\t\t\t\t", Err((1, 2, 0))),
    // bytes, wherever they stand
    (b"a\x00\n", Err((1, 2, 0))),
    (b"a b\n", Err((1, 2, 0))),
    (b"a\r\n", Err((1, 2, 0))),
    (b"a\x7f\n", Err((1, 2, 0))),
    (b"a\xff\n", Err((1, 2, 0))),
    (b"a\ta\tx\tA\t \n", Err((1, 2, 0))),
    (b"a\tb\tc\td\te\tf\tg\th\t \n", Err((1, 2, 0))),
    (b"!~\n", Err((1, 5, 1))),
    // no names
    (b"all\n", Err((1, 5, 1))),
    (b"A\n", Err((1, 5, 1))),
    (b"a.b\n", Err((1, 5, 1))),
    (b"longnames\n", Err((1, 5, 1))),
    (b"a\t\tb\n", Err((1, 5, 2))),
    (b"a\t\n", Err((1, 5, 2))),
    (b"\ta\n", Err((1, 5, 1))),
    // no listed moves
    (b"x\n", Err((1, 6, 1))),
    (b"p\n", Err((1, 6, 1))),
    (b"alls\n", Err((1, 6, 1))),
    (b"longnam\n", Err((1, 6, 1))),
    (b"a\tx\tb\ty\n", Err((1, 6, 2))),
    // the later of two that are the same, and the lowest such
    (b"a\ta\n", Err((1, 7, 2))),
    (b"a\tb\ta\n", Err((1, 7, 3))),
    (b"a\tb\tb\ta\n", Err((1, 7, 3))),
    (b"a\ta\ta\n", Err((1, 7, 2))),
    (b"h\tg\tf\te\td\tc\tb\tb\n", Err((1, 7, 8))),
    // several faults at once: the lowest number in whatever field, and of one number the lowest field
    (b"a\ta\tx\tA\n", Err((1, 5, 4))),
    (b"x\ta\ta\tall\tA\n", Err((1, 5, 4))),
    (b"A\tA\n", Err((1, 5, 1))),
    (b"a\ta\tx\ty\n", Err((1, 6, 3))),
    (b"x\tx\n", Err((1, 6, 1))),
    // the lines one after the other
    (b"a\nx\n", Err((2, 6, 1))),
    (b"a\nb\t \n", Err((2, 2, 0))),
    (b"a\ta\nA\n", Err((1, 7, 2))),
    (b"x\n\x00", Err((1, 6, 1))),
    (b"a\nb\nc\td\tc\nx\n", Err((3, 7, 3))),
];

#[test]
fn each_rule(rt: HostRuntime) -> Result<(), Fail> {
    let heap = rt.alloc();
    let depot = depot_of(&rt, heap, MOVES);
    for (sheet, told) in ROWS {
        check_plan(&rt, heap, &depot, sheet, *told)?;
    }
    // under a depot with no moves
    let none = depot_of(&rt, heap, "K\tplain\nG\t()\n");
    check_plan(&rt, heap, &none, b"", Ok(&[]))?;
    check_plan(&rt, heap, &none, b"a\n", Err((1, 6, 1)))
}

// The steps of 64 lines with the move b.
const STEPS_64: [&[usize]; 64] = [&[2]; 64];

// What follows them, and what is told of the sheet.
const AFTER_64: &[(&str, (usize, u8, usize))] = &[
    ("a\n", (65, 9, 0)),
    ("a\tb\na\n", (65, 9, 0)),
    ("a\n \n", (65, 9, 0)),
    // every other fault of the line comes first
    ("a", (65, 2, 0)),
    (" \n", (65, 2, 0)),
    ("a\tb\tc\td\te\tf\tg\th\ta\n", (65, 4, 0)),
    ("\n", (65, 5, 1)),
    ("a\tx\n", (65, 6, 2)),
    ("a\ta\n", (65, 7, 2)),
];

#[test]
fn limits(rt: HostRuntime) -> Result<(), Fail> {
    let heap = rt.alloc();
    let depot = depot_of(&rt, heap, MOVES);
    let full = "b\n".repeat(heap, 64)?;
    check_plan(&rt, heap, &depot, full.as_bytes(), Ok(&STEPS_64))?;
    for (rest, refused) in AFTER_64 {
        let sheet = format!(in heap; "{full}{rest}")?;
        check_plan(&rt, heap, &depot, sheet.as_bytes(), Err(*refused))?;
    }
    // a line of 240 bytes, and one of 241
    let line = "a".repeat(heap, 240)?;
    let long = format!(in heap; "{line}\n")?;
    check_plan(&rt, heap, &depot, long.as_bytes(), Err((1, 5, 1)))?;
    let over = format!(in heap; "a{line}\n")?;
    check_plan(&rt, heap, &depot, over.as_bytes(), Err((1, 2, 0)))?;
    // a sheet of 16,384 bytes, and one more byte, which comes before every line
    let large = "b\n".repeat(heap, 8192)?;
    check_plan(&rt, heap, &depot, large.as_bytes(), Err((65, 9, 0)))?;
    let larger = format!(in heap; "{large}\n")?;
    check_plan(&rt, heap, &depot, larger.as_bytes(), Err((0, 1, 0)))?;
    let spaces = " ".repeat(heap, 16384)?;
    check_plan(&rt, heap, &depot, spaces.as_bytes(), Err((1, 2, 0)))?;
    let more = format!(in heap; "{spaces} ")?;
    check_plan(&rt, heap, &depot, more.as_bytes(), Err((0, 1, 0)))
}
