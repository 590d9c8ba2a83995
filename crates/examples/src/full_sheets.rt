// Depot sheets at their limits: each table, list, line and sheet when it is full, and with one more.
use crate::sheet_rows::{Row, check_rows};
use std::alloc::{AllocError, Global};
use std::test::Fail;

// Lines with a number in each, from 0 on.
fn push_numbered(
    sheet: &mut String,
    front: &str,
    count: usize,
    back: &str,
) -> Result<(), AllocError> {
    for n in 0..count {
        writeln!(sheet, "{front}{n}{back}")?;
    }
    Ok(())
}

// Moves with the same effects each.
fn push_moves(sheet: &mut String, count: usize, effects: &str) -> Result<(), AllocError> {
    for n in 0..count {
        write!(sheet, "M\tm{n}\t()\n{effects}")?;
    }
    Ok(())
}

// A sheet that begins with a text and goes on with numbered lines.
fn numbered(
    heap: Global,
    top: &str,
    front: &str,
    count: usize,
    back: &str,
) -> Result<String, AllocError> {
    let mut sheet = String::from_str(heap, top)?;
    push_numbered(&mut sheet, front, count, back)?;
    Ok(sheet)
}

const ZONES: &[Row] = &[
    ("G\t()\n", None),
    ("Z\tz12\n", Some((14, 9, 0))),
    ("Z\tz0\n", Some((14, 7, 2))),
    ("Z\tZ\n", Some((14, 5, 2))),
];

const MATTERS: &[Row] = &[
    ("G\t()\n", None),
    ("P\tp64\n", Some((66, 9, 0))),
    ("P\tp0\n", Some((66, 7, 2))),
];

const MOVES: &[Row] = &[
    ("G\t()\n", None),
    ("M\tm64\t()\n", Some((66, 9, 0))),
    ("M\tm0\t()\n", Some((66, 7, 2))),
    ("M\tm64\tx\n", Some((66, 6, 3))),
];

const FACTS: &[Row] = &[
    ("G\t()\n", None),
    ("F\tall.p0\n", Some((195, 9, 0))),
    ("F\tz.z.p0\n", Some((195, 8, 2))),
    ("F\tz.p0\n", Some((195, 7, 2))),
];

// Each table when it is full: the sheet is read, and one entry more is 9, but every other fault of its line comes first.
#[test]
fn full_tables(rt: HostRuntime) -> Result<(), Fail> {
    let heap = rt.alloc();
    let zones = numbered(heap, "K\tsight\n", "Z\tz", 12, "")?;
    check_rows(&rt, heap, &zones, ZONES)?;
    let matters = numbered(heap, "K\tplain\n", "P\tp", 64, "")?;
    check_rows(&rt, heap, &matters, MATTERS)?;
    let moves = numbered(heap, "K\tplain\n", "M\tm", 64, "\t()")?;
    check_rows(&rt, heap, &moves, MOVES)?;
    let mut facts = numbered(heap, "K\tsight\nZ\tz\n", "P\tp", 64, "")?;
    push_numbered(&mut facts, "F\tp", 64, "")?;
    push_numbered(&mut facts, "F\tz.p", 64, "")?;
    check_rows(&rt, heap, &facts, FACTS)
}

const NOTHING_DONE: &str = "E\t()\t-\t-\n";

// A formula of size 16.
const SIXTEEN: &str = "\t(()&()&()&()&()&()&()&()&()&()&()&()&()&()&())";

const OWN_EFFECTS: &[Row] = &[
    ("G\t()\n", None),
    ("E\t()\t-\t-\n", Some((19, 9, 0))),
    ("E\t(\t-\t-\n", Some((19, 5, 2))),
];

const ALL_EFFECTS: &[Row] = &[
    ("M\tm16\t()\nG\t()\n", None),
    ("M\tm16\t()\nE\t()\t-\t-\n", Some((275, 9, 0))),
];

// 63 needs of size 16 leave room for one more.
const SIZES: &[Row] = &[
    ("G\t(()&()&()&()&()&()&()&()&()&()&()&()&()&()&())\n", None),
    (
        "G\t!(()&()&()&()&()&()&()&()&()&()&()&()&()&()&())\n",
        Some((65, 9, 0)),
    ),
    (
        "G\t!(()&()&()&()&()&()&()&()&()&()&()&()&()&()&a)\n",
        Some((65, 6, 2)),
    ),
    (
        "M\tm\t!(()&()&()&()&()&()&()&()&()&()&()&()&()&()&())\n",
        Some((65, 9, 0)),
    ),
    (
        "E\t!(()&()&()&()&()&()&()&()&()&()&()&()&()&()&())\t-\t-\n",
        Some((65, 9, 0)),
    ),
    (
        "M\tm\t(()&()&()&()&()&()&()&()&()&()&()&()&()&()&())\nG\t()\n",
        Some((66, 9, 0)),
    ),
];

const LISTS: &[Row] = &[
    (
        "M\tm\t()\nE\t()\tp0,p1,p2,p3,p4,p5,p6,p7\tp8\nG\t()\n",
        None,
    ),
    (
        "M\tm\t()\nE\t()\tp0,p1,p2,p3,p4,p5,p6,p7,p8\t-\nG\t()\n",
        Some((21, 5, 3)),
    ),
    (
        "M\tm\t()\nE\t()\t-\tp0,p1,p2,p3,p4,p5,p6,p7,p8\nG\t()\n",
        Some((21, 5, 4)),
    ),
];

// The same of effects, of the sizes of formulas and of a list.
#[test]
fn full_moves(rt: HostRuntime) -> Result<(), Fail> {
    let heap = rt.alloc();
    let effects = NOTHING_DONE.repeat(heap, 16)?;
    let mut own = String::from_str(heap, "K\tplain\n")?;
    push_moves(&mut own, 1, &effects)?;
    check_rows(&rt, heap, &own, OWN_EFFECTS)?;
    let mut all = String::from_str(heap, "K\tplain\n")?;
    push_moves(&mut all, 16, &effects)?;
    check_rows(&rt, heap, &all, ALL_EFFECTS)?;
    let sizes = numbered(heap, "K\tplain\n", "M\tm", 63, SIXTEEN)?;
    check_rows(&rt, heap, &sizes, SIZES)?;
    let mut list = numbered(heap, "K\tplain\n", "P\tp", 9, "")?;
    push_numbered(&mut list, "F\tp", 9, "")?;
    check_rows(&rt, heap, &list, LISTS)
}

const EIGHT_EACH: &str =
    "E\t()\taaaaaaa0,aaaaaaa1,aaaaaaa2,aaaaaaa3,aaaaaaa4,aaaaaaa5,aaaaaaa6,aaaaaaa7\taaaaaaa0,aaaaaaa1,aaaaaaa2,aaaaaaa3,aaaaaaa4,aaaaaaa5,aaaaaaa6,aaaaaaa7\n";

// A sheet of 32,633 bytes: 184 for the kind, 8 matters and 8 facts, 13 moves with 16 effects of 149 bytes each, whose own
// lines have 107 bytes, and one of 9 bytes with 9 effects. With a goal's line of 135 bytes it is as large as it may be.
fn large_sheet(heap: Global) -> Result<String, AllocError> {
    let mut sheet = numbered(heap, "K\tplain\n", "P\taaaaaaa", 8, "")?;
    push_numbered(&mut sheet, "F\taaaaaaa", 8, "")?;
    push_moves(&mut sheet, 13, &EIGHT_EACH.repeat(heap, 16)?)?;
    sheet.push_str("M\tm13\t()\n")?;
    sheet.push_str(&EIGHT_EACH.repeat(heap, 9)?)?;
    Ok(sheet)
}

// The same of the bytes of a line.
#[test]
fn full_lines(rt: HostRuntime) -> Result<(), Fail> {
    let heap = rt.alloc();
    // a goal of 117 facts more makes a line of 240 bytes, and one of 241
    let more = "&a".repeat(heap, 117)?;
    let goal = format!(in heap; "K\tplain\nP\ta\nF\ta\nG\t(!a{more}")?;
    check_rows(
        &rt,
        heap,
        &goal,
        &[(")\n", None), ("&)\n", Some((4, 2, 0)))],
    )?;
    // and so does a matter of 238 bytes, which is no name
    let matter = "a".repeat(heap, 238)?;
    let matter = format!(in heap; "K\tplain\nP\t{matter}")?;
    check_rows(
        &rt,
        heap,
        &matter,
        &[("\n", Some((2, 5, 2))), ("a\n", Some((2, 2, 0)))],
    )
}

// A sheet of as many bytes as it may have is read; one byte more is told before every line.
#[test]
fn full_sheets(rt: HostRuntime) -> Result<(), Fail> {
    let heap = rt.alloc();
    let mut large = large_sheet(heap)?;
    large.push_str("G\t!!(()")?;
    large.push_str(&"&()".repeat(heap, 42)?)?;
    assert_eq!(rt; large.len(), 32766);
    check_rows(
        &rt,
        heap,
        &large,
        &[(")\n", None), (")\n\n", Some((0, 1, 0)))],
    )?;
    // the size comes before a letter that is none
    let blank = "\n".repeat(heap, 32768)?;
    check_rows(
        &rt,
        heap,
        &blank,
        &[("", Some((1, 3, 0))), ("\n", Some((0, 1, 0)))],
    )?;
    // and before a line that is too long
    let long = "a".repeat(heap, 32768)?;
    check_rows(
        &rt,
        heap,
        &long,
        &[("", Some((1, 2, 0))), ("a", Some((0, 1, 0)))],
    )
}
