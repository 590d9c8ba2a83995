// Depot sheets with what the rules say of each: the line, the number and the field of the refusal, 0 where unused, or none
// where the sheet is read.
use crate::verdicts::Verdict;
use depots::any_depot;
use sheets::faults::Fault;
use sheets::refusals::Refusal;
use std::alloc::{AllocError, Global};
use std::process::Abort;
use std::test::Fail;

// The end of a sheet, and the line, the number and the field of its verdict, or none where the sheet is read.
pub type Row = (&'static str, Option<(usize, u8, usize)>);

// What is told of a sheet. That memory was wanting fails the test and is no verdict.
pub fn verdict(heap: Global, sheet: &[u8]) -> Result<Option<Verdict>, AllocError> {
    match any_depot::read(heap, sheet).err() {
        Some(
            Fault {
                refusal: Refusal::NoMemory,
                ..
            },
        ) => Err(AllocError),
        told => Ok(told.map(Verdict::from)),
    }
}

// Each row is the end of a sheet that begins with the same lines.
pub fn check_rows(rt: &impl Abort, heap: Global, top: &str, rows: &[Row]) -> Result<(), Fail> {
    for (bottom, told) in rows {
        let told = told.map(Verdict::from);
        let sheet = format!(in heap; "{top}{bottom}")?;
        assert_eq!(rt; verdict(heap, sheet.as_bytes())?, told, "{bottom}");
    }
    Ok(())
}
