// A line of a report that shows a text.
ghost use Rattle.std.specs.Prelude.{◌≡◌, [], ◌∷◌, ◌++◌, OnOk};
ghost use Rattle.reports.specs.Written.{written};

use std::alloc::AllocError;

// Adds a line to a report: a letter and the text that is shown under it, whose bytes need not be UTF-8.
pub(crate) fn push_shown(report: &mut Vec<u8>, letter: u8, text: &[u8]) -> Result<(), AllocError>
    ensures { OnOk result (report.new.items ≡ report.old.items ++ written ((letter ∷ []) ∷ text.now ∷ [])) }
{
    report.push(letter)?;
    report.push(b'\t')?;
    report.extend_from_slice(text)?;
    report.push(b'\n')?;
    Ok(())
}
