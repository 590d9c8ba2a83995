// How pairs of sheets are written one after the other. A line `pair D P` counts the bytes of a depot sheet and of a plan sheet,
// which follow it and may be any bytes.
ghost use Rattle.std.specs.Prelude.{◌≡◌, ◌+◌, ◌<◌, ◌++◌, length, IfOk, IfSome, MatchOption};
ghost use Rattle.batch.specs.Pairs.{BeginsPair, FirstPair, WritesNumber};

use sheets::faulty_line::Sheets;
use sheets::lines::first_line;
use std::{io, str};

// How many bytes each sheet of a pair has.
#[derive(Clone, Copy)]
struct Lengths {
    depot: usize,
    plan: usize,
}

// The number that a word writes in digits, if it fits a machine number. The library would take a sign too.
fn number(word: &str) -> Option<usize>
    ensures { IfSome result (λ n. WritesNumber word.now n) }
{
    if word.starts_with('+') {
        return None;
    }
    word.parse().ok()
}

// The lengths that a line tells, if it is one that begins a pair.
fn lengths_on(line: &[u8]) -> Option<Lengths>
    ensures { IfSome result (λ x. BeginsPair line.now x.depot x.plan) }
{
    let text = str::from_utf8(line).ok()?;
    let (depot, plan) = text.strip_prefix("pair ")?.split_once(" ")?;
    Some(Lengths {
        depot: number(depot)?,
        plan: number(plan)?,
    })
}

// The sheets that some bytes begin with, and what follows them; none where there are fewer bytes than are told.
fn cut<'a>(bytes: &'a [u8], told: Lengths) -> Option<(Sheets<'a>, &'a [u8])>
    ensures { MatchOption result (length bytes.now < told.depot + told.plan) (λ x. (bytes.now ≡ x.0.depot.now ++ (x.0.plan.now ++ x.1.now)) × ((length x.0.depot.now ≡ told.depot) × (length x.0.plan.now ≡ told.plan))) }
{
    let (depot, below) = bytes.split_at_checked(told.depot)?;
    let (plan, rest) = below.split_at_checked(told.plan)?;
    Some((Sheets { depot, plan }, rest))
}

// The pair that stands first in an input, and the rest.
pub fn first_pair<'a>(input: &'a [u8]) -> io::Result<(Sheets<'a>, &'a [u8])>
    ensures pair { IfOk result (λ x. FirstPair input.now x.0.depot.now x.0.plan.now x.1.now) }
    ensures shorter { IfOk result (λ x. length x.1.now < length input.now) }
{
    let (line, below) = match first_line(input) {
        Some((line, below)) if line.ended => (line, below),
        _ => return Err(io::Error::other("the last line has no end")),
    };
    let told = lengths_on(line.text).ok_or(io::Error::other(
        "a pair does not begin with a line `pair D P`",
    ))?;
    cut(below, told).ok_or(io::Error::other("the last pair has fewer bytes than its line tells"))
}
