// The line that a refusal speaks of, by its sheet and line alone.
use sheets::faults::{Fault, Sheet};
use sheets::faulty_line::Sheets;
use sheets::refusals::Refusal;

const SHEETS: Sheets = Sheets {
    depot: b"one\n\nthree",
    plan: b"uno\ndos\n",
};

// The sheet and the line of a fault, and the text that is shown.
const ROWS: &[(Option<Sheet>, usize, Option<&[u8]>)] = &[
    (Some(Sheet::Depot), 1, Some(b"one")),
    (Some(Sheet::Depot), 2, Some(b"")),
    (Some(Sheet::Depot), 3, Some(b"three")),
    (Some(Sheet::Plan), 2, Some(b"dos")),
    (Some(Sheet::Depot), 0, None),
    (Some(Sheet::Depot), 4, None),
    (Some(Sheet::Plan), 3, None),
    (Some(Sheet::Depot), usize::MAX, None),
    (None, 1, None),
];

#[test]
fn by_sheet_and_line(rt: HostRuntime) {
    for (sheet, line, text) in ROWS {
        let fault = Fault {
            sheet: *sheet,
            line: *line,
            refusal: Refusal::NoMemory,
        };
        assert_eq!(rt; SHEETS.line(&fault), *text, "line {line}");
    }
}
