// The program: the two sheets of the folder it is run in, and the report on standard output.
#![tactic(auto)]

use plans::plan_reader::PLAN_LIMIT;
use reports::check::check;
use sheets::faults::Fault;
use sheets::faulty_line::Sheets;
use sheets::layout::DEPOT_LIMIT;
use sheets::refusals::Refusal;
use std::fs::File;
use std::io;
use std::io::{ErrorKind, Read, Write};
use std::rt::Files;

// The bytes of the buffer, which no report is longer than.
const BUFFER: usize = 8192;

// A file's bytes, one past the limit at the most, since that is enough to tell that it is over.
fn read_up_to(rt: &(impl Files + AllocGlobal), path: &str, limit: usize) -> io::Result<Vec<u8>> {
    let mut bytes = Vec::new(rt.alloc());
    let file = File::open(rt, path)?;
    file.take((limit as u64).saturating_add(1))
        .read_to_end(&mut bytes)?;
    Ok(bytes)
}

// A sheet's bytes: none where its file cannot be opened or read.
fn read_sheet(rt: &(impl Files + AllocGlobal), path: &str, limit: usize) -> io::Result<Vec<u8>> {
    read_up_to(rt, path, limit).or_else(|error| match error.kind() {
        ErrorKind::OutOfMemory => Err(error),
        _ => Ok(Vec::new(rt.alloc())),
    })
}

// A fault that no report tells: memory was wanting, or the buffer was short.
fn unreported(fault: Fault) -> io::Error {
    match fault.refusal {
        Refusal::BufferShort => io::Error::other("the report is longer than the buffer"),
        _ => io::Error::from(ErrorKind::OutOfMemory),
    }
}

fn main(rt: HostRuntime) -> io::Result<()> {
    let depot = read_sheet(&rt, "depot.tsv", DEPOT_LIMIT)?;
    let plan = read_sheet(&rt, "plan.tsv", PLAN_LIMIT)?;
    let sheets = Sheets {
        depot: &depot,
        plan: &plan,
    };
    let mut buffer = vec![in rt.alloc(); 0; BUFFER]?;
    let length = check(rt.alloc(), &sheets, &mut buffer).map_err(unreported)?;
    buffer.truncate(length);
    rt.stdout().write_all(&buffer)
}
