// The program: pairs of sheets from standard input, and the report on each on standard output.
#![tactic(auto)]

mod judged;
mod pairs;

use crate::judged::judge_pairs;
use std::io;
use std::io::{Read, Write};

fn main(rt: HostRuntime) -> io::Result<()> {
    let mut input = Vec::new(rt.alloc());
    rt.stdin().read_to_end(&mut input)?;
    let mut printed = Vec::new(rt.alloc());
    let judged = judge_pairs(rt.alloc(), &input, &mut printed);
    // What was judged before a fault of the input is printed all the same.
    rt.stdout().write_all(&printed)?;
    judged
}
