// The report of a plan that is accepted.
ghost use Rattle.std.specs.Prelude.{◌≡◌, ◌++◌, IfOk, OnOk};
ghost use Rattle.depots.specs.Tables.{tables_of};
ghost use Rattle.walkthroughs.specs.Walkthroughs.{held};
ghost use Rattle.reports.specs.Accepted.{acceptance_report, standing_lines};

use crate::shown::push_shown;
use depots::depot::Depot;
use facts::kinds::Kind;
use sheets::listed::Name;
use std::alloc::{AllocError, Global};
use walkthroughs::walkthrough::Walkthrough;

// Adds a line for each fact that stands, of facts with some texts. Apart from the report, which has a type parameter: in such a
// function the check refuses a loop over adapters.
fn push_standing(
    report: &mut Vec<u8>,
    texts: &[Name],
    walkthrough: &Walkthrough,
) -> Result<(), AllocError>
    ensures { OnOk result (report.new.items ≡ report.old.items ++ standing_lines 1 (held walkthrough.now).stands texts.now) }
{
    for (i, text) in texts.iter().enumerate() {
        if walkthrough.stands(i + 1) {
            push_shown(report, b'T', text.text())?;
        }
    }
    Ok(())
}

// The report of an accepted plan: how many steps it has, and the facts that stand at its end, in the order of their lines.
pub fn acceptance_report<K: Kind>(
    heap: Global,
    depot: &Depot<K>,
    walkthrough: &Walkthrough,
    steps: usize,
) -> Result<Vec<u8>, AllocError>
    ensures { IfOk result (λ v. v.items ≡ acceptance_report steps (tables_of depot.now).texts (held walkthrough.now).stands) }
{
    let mut report = format!(in heap; "OK\t{steps}\n")?.into_bytes();
    push_standing(&mut report, depot.texts(), walkthrough)?;
    Ok(report)
}
