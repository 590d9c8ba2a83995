// The reports on the pairs of an input.
ghost use Rattle.std.specs.Prelude.{◌≡◌, [], OnOk};
ghost use Rattle.batch.specs.Judged.{Judged, Reported};

use crate::pairs::first_pair;
use reports::check::check;
use sheets::faults::Fault;
use sheets::faulty_line::Sheets;
use sheets::refusals::Refusal;
use std::alloc::Global;
use std::io;
use std::io::ErrorKind;

// The bytes of the buffer, which no report is longer than.
const BUFFER: usize = 8192;

// A fault that no report tells: memory was wanting, or the buffer was short.
fn unreported(fault: Fault) -> io::Error {
    match fault.refusal {
        Refusal::BufferShort => io::Error::other("the report is longer than the buffer"),
        _ => io::Error::from(ErrorKind::OutOfMemory),
    }
}

// Adds the report on a pair to what is printed, below a line with its length. The buffer is used again for each pair.
fn judge_pair(
    heap: Global,
    pair: &Sheets,
    buffer: &mut [u8],
    printed: &mut Vec<u8>,
) -> io::Result<()>
    ensures { OnOk result (Reported pair.now.depot.now pair.now.plan.now printed.old.items printed.new.items) }
{
    let length = check(heap, pair, buffer).map_err(unreported)?;
    let heading = format!(in heap; "report {length}\n")?;
    printed.extend_from_slice(heading.as_bytes())?;
    printed.extend_from_slice(&buffer[..length])?;
    Ok(())
}

// Adds the reports on the pairs of an input to what is printed, up to the first that is not as pairs are written.
pub fn judge_pairs(heap: Global, input: &[u8], printed: &mut Vec<u8>) -> io::Result<()>
    ensures { OnOk result (Judged input.now printed.old.items [] printed.new.items) }
{
    let mut buffer = vec![in heap; 0; BUFFER]?;
    let mut rest = input;
    while !rest.is_empty() {
        let (pair, below) = first_pair(rest)?;
        judge_pair(heap, &pair, &mut buffer, printed)?;
        rest = below;
    }
    Ok(())
}
