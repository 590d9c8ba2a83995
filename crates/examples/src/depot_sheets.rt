// Depot sheets with what the rules say of each, worked out by hand.
use crate::sheet_rows::{Row, check_rows, verdict};
use crate::verdicts::Verdict;
use depots::depot::Depot;
use facts::plain::Plain;
use std::test::Fail;

// Lines, their letters and their numbers of fields.
const LAYOUTS: &[Row] = &[
    ("", Some((0, 10, 0))),
    ("K\tplain\nG\t()\n", None),
    ("K\tplain\nG\t()", Some((2, 2, 0))),
    ("\n", Some((1, 3, 0))),
    ("K\tplain\n\nG\t()\n", Some((2, 3, 0))),
    (
        "K\tplain\nP\ta\nF\ta\nI\ta\nM\tm\ta\nE\ta\ta\t-\nM\tn\t()\nG\ta\n",
        None,
    ),
    ("K\tsight\nZ\tz\nZ\ty\nP\ta\nG\t()\n", None),
    ("K\tsight\nG\t()\n", None),
    ("K\tplain\n", Some((1, 10, 0))),
    ("K\tplain\nP\ta\n", Some((2, 10, 0))),
    // each letter out of place
    ("P\ta\nG\t()\n", Some((1, 3, 0))),
    ("K\tplain\nK\tplain\n", Some((2, 3, 0))),
    ("K\tplain\nZ\tz\n", Some((2, 3, 0))),
    ("K\tsight\nP\ta\nZ\tz\n", Some((3, 3, 0))),
    ("K\tplain\nP\ta\nF\ta\nP\tb\n", Some((4, 3, 0))),
    ("K\tplain\nP\ta\nF\ta\nI\ta\nF\ta\n", Some((5, 3, 0))),
    ("K\tplain\nM\tm\t()\nI\ta\n", Some((3, 3, 0))),
    ("K\tplain\nE\t()\t-\t-\n", Some((2, 3, 0))),
    ("K\tplain\nG\t()\nM\tm\t()\n", Some((3, 3, 0))),
    ("K\tplain\nG\t()\nG\t()\n", Some((3, 3, 0))),
    ("K\tplain\nG\t()\n ", Some((3, 2, 0))),
    ("K\tplain\nG\t(\nG\t()\n", Some((2, 5, 2))),
    ("k\tplain\n", Some((1, 3, 0))),
    ("KK\tplain\n", Some((1, 3, 0))),
    ("\tplain\n", Some((1, 3, 0))),
    ("X\tplain\n", Some((1, 3, 0))),
    // numbers of fields
    ("K\n", Some((1, 4, 0))),
    ("K\tplain\t\n", Some((1, 4, 0))),
    ("K\tplain\nM\tm\n", Some((2, 4, 0))),
    ("K\tplain\nM\tm\t()\nE\t()\t-\n", Some((3, 4, 0))),
    ("K\tplain\nG\t()\t()\n", Some((2, 4, 0))),
    // bytes
    ("K\tpl\0in\nG\t()\n", Some((1, 2, 0))),
    ("K\tplain\r\nG\t()\n", Some((1, 2, 0))),
    ("K\tpl in\nG\t()\n", Some((1, 2, 0))),
    ("K\tpl\x7fin\nG\t()\n", Some((1, 2, 0))),
    ("K\tpl\u{e9}n\nG\t()\n", Some((1, 2, 0))),
    // the kind's word
    ("K\tpl!~in\nG\t()\n", Some((1, 5, 2))),
    ("K\tcrew\nG\t()\n", Some((1, 5, 2))),
    ("K\t\nG\t()\n", Some((1, 5, 2))),
    ("K\tSight\nZ\tz\n", Some((1, 5, 2))),
    // the line comes before the number, and on one line the lower number
    ("K\nX\0\n", Some((1, 4, 0))),
    ("X\0\n", Some((1, 2, 0))),
    ("X", Some((1, 2, 0))),
    ("K\tcrew\tcrew\n", Some((1, 4, 0))),
];

// Names, and facts of the plain kind.
const PLAIN: &[Row] = &[
    ("P\tabcdefg8\nG\t()\n", None),
    ("P\tabcdefgh9\n", Some((2, 5, 2))),
    ("P\talls\nG\t()\n", None),
    ("P\tall\n", Some((2, 5, 2))),
    ("P\t\n", Some((2, 5, 2))),
    ("P\tA\n", Some((2, 5, 2))),
    ("P\ta.b\n", Some((2, 5, 2))),
    ("P\ta\nP\tb\nP\ta\n", Some((4, 7, 2))),
    ("M\tm\t()\nM\tm\t()\n", Some((3, 7, 2))),
    ("P\ta\nF\ta\nM\ta\ta\nG\ta\n", None),
    ("P\ta\nF\tb\n", Some((3, 6, 2))),
    ("P\ta\nF\tall.a\n", Some((3, 5, 2))),
    ("P\ta\nF\ta\nF\ta\n", Some((4, 7, 2))),
    ("P\ta\nI\ta\n", Some((3, 6, 2))),
    ("P\ta\nF\ta\nI\tA\n", Some((4, 5, 2))),
    ("P\ta\nF\ta\nI\ta\nI\ta\n", Some((5, 7, 2))),
];

// Facts of the sight kind, below the zones z and y and the matters a and z.
const SIGHT: &[Row] = &[
    ("F\tz.y.z.y.z.a\nG\t()\n", None),
    ("F\tz.y.z.y.z.y.a\n", Some((6, 5, 2))),
    ("F\tz.all\n", Some((6, 5, 2))),
    ("F\tz..a\n", Some((6, 5, 2))),
    ("F\tx.A\n", Some((6, 5, 2))),
    ("F\tx.a\n", Some((6, 6, 2))),
    ("F\tz.b\n", Some((6, 6, 2))),
    ("F\tz.z.a\n", Some((6, 8, 2))),
    ("F\tz.all.a\n", Some((6, 8, 2))),
    ("F\tx.x.a\n", Some((6, 6, 2))),
    ("F\tall.z.a\nF\tz.y.z.a\nG\t()\n", None),
    ("F\tz.a\nF\tz.a\n", Some((7, 7, 2))),
    // a fact that is always true is not listed, so it is 6 elsewhere
    ("G\tz.z.a\n", Some((6, 6, 2))),
    // the same name as zone, matter and move
    ("F\tz\nF\tz.z\nM\tz\tz.z\nG\tz\n", None),
    // one started fact may carry another
    ("F\tall.a\nF\tz.a\nI\tall.a\nI\tz.a\nG\t()\n", None),
];

// Goals, where a is a listed fact and b a matter that is none.
const FORMULAS: &[Row] = &[
    ("G\t()\n", None),
    ("G\t!()\n", None),
    ("G\t((a))\n", None),
    ("G\t(a&!a&a)\n", None),
    ("G\t\n", Some((5, 5, 2))),
    ("G\t(a&)\n", Some((5, 5, 2))),
    ("G\t(&a)\n", Some((5, 5, 2))),
    ("G\t(a&&a)\n", Some((5, 5, 2))),
    ("G\t!\n", Some((5, 5, 2))),
    ("G\t(a\n", Some((5, 5, 2))),
    ("G\ta)\n", Some((5, 5, 2))),
    ("G\ta&a\n", Some((5, 5, 2))),
    ("G\t()a\n", Some((5, 5, 2))),
    ("G\t!!!!!!!!a\n", None),
    ("G\t!!!!!!!!!a\n", Some((5, 5, 2))),
    ("G\t((((((((a))))))))\n", None),
    ("G\t(((((((((a)))))))))\n", Some((5, 5, 2))),
    ("G\t(((((((())))))))\n", None),
    ("G\t((((((((()))))))))\n", Some((5, 5, 2))),
    ("G\tb\n", Some((5, 6, 2))),
    ("G\t(b&!c)\n", Some((5, 6, 2))),
    ("G\t(b&A)\n", Some((5, 5, 2))),
];

// Effects, where a and b are listed facts and c is a matter that is none, and moves below a move m.
const EFFECTS: &[Row] = &[
    ("E\t()\t-\t-\nG\t()\n", None),
    ("E\t()\tb,a\ta\nG\t()\n", None),
    ("E\t()\t\t-\n", Some((8, 5, 3))),
    ("E\t()\t-,a\t-\n", Some((8, 5, 3))),
    ("E\t()\ta,\t-\n", Some((8, 5, 3))),
    ("E\t()\t-\t,a\n", Some((8, 5, 4))),
    ("E\t()\tc\t-\n", Some((8, 6, 3))),
    ("E\t()\t-\ta,d\n", Some((8, 6, 4))),
    ("E\t()\ta,a\t-\n", Some((8, 7, 3))),
    ("E\t()\ta\tb,a,b\n", Some((8, 7, 4))),
    // eight parts are read, nine are not
    ("E\t()\ta,a,a,a,a,a,a,a\t-\n", Some((8, 7, 3))),
    ("E\t()\ta,a,a,a,a,a,a,a,a\t-\n", Some((8, 5, 3))),
    // within a list the form comes first, and a repeat last
    ("E\t()\tc,A\t-\n", Some((8, 5, 3))),
    ("E\t()\ta,a,c\t-\n", Some((8, 6, 3))),
    // several faults at once: the lowest number in whatever field, and of one number the lowest field
    ("E\tc\ta\tA\n", Some((8, 5, 4))),
    ("E\t(\tA\tA\n", Some((8, 5, 2))),
    ("E\t()\tA\tA\n", Some((8, 5, 3))),
    ("E\t()\ta,a\tc\n", Some((8, 6, 4))),
    ("E\tc\tc\tb,b\n", Some((8, 6, 2))),
    ("E\t()\ta,a\tb,b\n", Some((8, 7, 3))),
    ("E\t(\tA\n", Some((8, 4, 0))),
    ("M\tm\tc\n", Some((8, 6, 3))),
    ("M\tm\t(\n", Some((8, 5, 3))),
    ("M\tM\t(\n", Some((8, 5, 2))),
    ("M\tm\t()\n", Some((8, 7, 2))),
];

#[test]
fn each_rule(rt: HostRuntime) -> Result<(), Fail> {
    let heap = rt.alloc();
    check_rows(&rt, heap, "", LAYOUTS)?;
    check_rows(&rt, heap, "K\tplain\n", PLAIN)?;
    check_rows(&rt, heap, "K\tsight\nZ\tz\nZ\ty\nP\ta\nP\tz\n", SIGHT)?;
    check_rows(&rt, heap, "K\tplain\nP\ta\nP\tb\nF\ta\n", FORMULAS)?;
    check_rows(
        &rt,
        heap,
        "K\tplain\nP\ta\nP\tb\nP\tc\nF\ta\nF\tb\nM\tm\t()\n",
        EFFECTS,
    )
}

// A sheet need not be text.
#[test]
fn sheets_of_bytes(rt: HostRuntime) -> Result<(), Fail> {
    let told = verdict(rt.alloc(), b"K\tpl\xffin\nG\t()\n")?;
    assert_eq!(rt; told, Some(Verdict::from((1, 2, 0))));
    Ok(())
}

// A sheet that is refused leaves a depot empty, whatever was in it.
#[test]
fn refused_depots(rt: HostRuntime) {
    let heap = rt.alloc();
    let mut depot: Depot<Plain> = Depot::empty(heap);
    assert!(rt;
        depot
            .read(heap, b"K\tplain\nP\ta\nF\ta\nM\tm\ta\nG\ta\n")
            .is_ok()
    );
    assert_eq!(rt; depot.formula_count(), 2);
    assert!(rt;
        depot
            .read(heap, b"K\tplain\nP\ta\nF\ta\nM\tm\ta\nG\tb\n")
            .is_err()
    );
    assert_eq!(rt; depot.facts().len(), 0);
    assert_eq!(rt; depot.move_count(), 0);
    assert_eq!(rt; depot.formula_count(), 0);
}
