// The call that judges two sheets and writes the report.
ghost use Rattle.std.specs.Prelude.{◌≡◌, IfOk, ◌≢◌};
ghost use Rattle.sheets.specs.declared.refusals.Refusal.TheVariants.{NoMemory};
ghost use Rattle.depots.specs.Kinds.{meaning_of};
ghost use Rattle.depots.specs.Spelling.{DepotRead};
ghost use Rattle.depots.specs.Tables.{tables_of};
ghost use Rattle.reports.specs.Checked.{Checked, Report, ReportOf};
ghost use Rattle.reports.specs.Refused.{refusal_report};

use crate::accepted::acceptance_report;
use crate::refused::refusal_report;
use depots::any_depot;
use depots::any_depot::AnyDepot;
use depots::depot::Depot;
use facts::text_kinds::TextKind;
use plans::plan_reader::read_plan;
use plans::runner::judge_plan;
use sheets::faults::Fault;
use sheets::faulty_line::Sheets;
use sheets::refusals::Refusal;
use std::alloc::{AllocError, Global};

// The report of a refusal; that memory was wanting has none, and stays the error that it was.
fn told(heap: Global, sheets: &Sheets, fault: &Fault) -> Result<Vec<u8>, AllocError>
    ensures { IfOk result (λ v. (fault.now.refusal ≢ NoMemory) × (v.items ≡ refusal_report sheets.now.depot.now sheets.now.plan.now fault.now)) }
{
    match fault.refusal {
        Refusal::NoMemory => Err(AllocError),
        _ => refusal_report(heap, sheets, fault),
    }
}

// The report on a plan sheet, for a depot that is read.
fn report_on_plan<K: TextKind>(
    heap: Global,
    depot: &Depot<K>,
    sheets: &Sheets,
) -> Result<Vec<u8>, AllocError>
    requires { DepotRead (meaning_of K.Kind K.reading_under) sheets.now.depot.now (tables_of depot.now) }
    ensures { IfOk result (λ v. ReportOf (meaning_of K.Kind K.reading_under) K.carrying sheets.now.depot.now sheets.now.plan.now v.items) }
{
    let plan = match read_plan(heap, depot, sheets.plan) {
        Ok(plan) => plan,
        Err(fault) => return told(heap, sheets, &fault),
    };
    match judge_plan(depot, &plan) {
        Ok(walkthrough) => acceptance_report(heap, depot, &walkthrough, plan.steps().len()),
        Err(fault) => told(heap, sheets, &fault),
    }
}

// The report on two sheets.
fn report(heap: Global, sheets: &Sheets) -> Result<Vec<u8>, AllocError>
    ensures { IfOk result (λ v. Report sheets.now.depot.now sheets.now.plan.now v.items) }
{
    match any_depot::read(heap, sheets.depot) {
        Ok(AnyDepot::Plain(depot)) => report_on_plan(heap, &depot, sheets),
        Ok(AnyDepot::Sight(depot)) => report_on_plan(heap, &depot, sheets),
        Err(fault) => told(heap, sheets, &fault),
    }
}

// Judges a depot sheet and a plan sheet, writes the report into the front of a buffer and answers its length. The buffer stays
// where it is shorter than the report, and where memory was wanting.
pub fn check(heap: Global, sheets: &Sheets, buffer: &mut [u8]) -> Result<usize, Fault>
    ensures { Checked sheets.now.depot.now sheets.now.plan.now buffer.old buffer.new result }
{
    let report = report(heap, sheets).map_err(|error| Fault::unplaced(error.into()))?;
    let length = report.len();
    if buffer.len() < length {
        return Err(Fault::unplaced(Refusal::BufferShort));
    }
    buffer[..length].copy_from_slice(&report);
    Ok(length)
}
