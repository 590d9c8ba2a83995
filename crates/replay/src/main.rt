// The program: depot sheets with lists of calls from standard input, and the answers on standard output.
#![tactic(auto)]

mod call_lines;
mod replies;
mod report;
mod sections;

use crate::report::report;
use std::io;
use std::io::{Read, Write};

fn main(rt: HostRuntime) -> io::Result<()> {
    let mut input = Vec::new(rt.alloc());
    rt.stdin().read_to_end(&mut input)?;
    let report = report(rt.alloc(), &input)?;
    rt.stdout().write_all(&report)
}
