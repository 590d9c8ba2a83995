// The report of a refusal.
ghost use Rattle.std.specs.Prelude.{◌≡◌, IfOk, Some};
ghost use Rattle.std.specs.Option.{option_map};
ghost use Rattle.reports.specs.Refused.{word_of, refusal_line, shows_line, line_for, refusal_report};

use crate::shown::push_shown;
use sheets::faults::{Fault, Sheet};
use sheets::faulty_line::Sheets;
use sheets::refusals::Refusal;
use std::alloc::{AllocError, Global};
use std::fmt;

// The word for a sheet, or for none. It is no `Display` of a sheet, since the report of none has a word too.
fn word(sheet: Option<Sheet>) -> &'static str
    ensures { result.now ≡ word_of sheet }
{
    match sheet {
        Some(Sheet::Depot) => "depot",
        Some(Sheet::Plan) => "plan",
        None => "-",
    }
}

// The line of the report that tells a refusal: its number, the sheet, the line and the four details.
#[derive(Clone, Copy)]
struct Told<'a>(&'a Fault);

impl<'a> fmt::Display for Told<'a> {
    ghost output = { λ told. Some (refusal_line told.0.now) };

    fn fmt<W: fmt::Write>(&self, f: &mut fmt::Formatter<W>) -> fmt::Result {
        let number = self.0.refusal.number();
        let sheet = word(self.0.sheet);
        let line = self.0.line;
        let [a, b, c, d] = self.0.refusal.details();
        writeln!(f, "NO\t{number}\t{sheet}\t{line}\t{a}\t{b}\t{c}\t{d}")
    }
}

// Whether the faulty line is shown: not where the sheet as a whole is at fault, nor where the line cannot be shown.
fn shows_line(refusal: &Refusal) -> bool
    ensures { result ≡ shows_line refusal.now }
{
    !matches!(
        refusal,
        Refusal::OverLimit | Refusal::BadLine | Refusal::NoGoal | Refusal::GoalFalse
    )
}

// The line that is shown with a refusal, where there is one.
fn line_for<'a>(sheets: &Sheets<'a>, fault: &Fault) -> Option<&'a [u8]>
    ensures { option_map (λ x. x.now) result ≡ line_for sheets.now.depot.now sheets.now.plan.now fault.now }
{
    if shows_line(&fault.refusal) {
        sheets.line(fault)
    } else {
        None
    }
}

// The report of a refusal: what is told of it and, where one is at fault, the line.
pub fn refusal_report(heap: Global, sheets: &Sheets, fault: &Fault) -> Result<Vec<u8>, AllocError>
    ensures { IfOk result (λ v. v.items ≡ refusal_report sheets.now.depot.now sheets.now.plan.now fault.now) }
{
    let mut report = Told(fault).to_string(heap)?.into_bytes();
    if let Some(text) = line_for(sheets, fault) {
        push_shown(&mut report, b'L', text)?;
    }
    Ok(report)
}
