// The report on an input: what each of its depot sheets and the calls on it come to.
ghost use Rattle.std.specs.Prelude.{◌≡◌, List, Some, None, true, false, is_none, IfOk, drop, map, MatchResult};
ghost use Rattle.std.specs.Slice.Iter.{iter_rest};
ghost use Rattle.depots.specs.AnyDepots.{AnyRead, AnyTold};
ghost use Rattle.depots.specs.declared.any_depot.AnyDepot.{AnyDepot as ReadDepot};
ghost use Rattle.walkthroughs.specs.declared.exchange.Answer.{Answer as Kept};
ghost use Rattle.walkthroughs.specs.Exchanges.{call_of};
ghost use Rattle.replay.specs.CallLines.{as_calls};
ghost use Rattle.replay.specs.Replies.{first_answer, replies};
ghost use Rattle.replay.specs.Reports.{Report, Sent, TrialReport, any_ruled};

use crate::call_lines::{OwnCall, calls_of_lines, exchanges};
use crate::replies::Reply;
use crate::sections::{Trial, first_trial};
use depots::any_depot;
use depots::any_depot::AnyDepot;
use reports::refused::refusal_report;
use sheets::faults::Fault;
use sheets::faulty_line::Sheets;
use sheets::refusals::Refusal;
use std::alloc::{AllocError, Global};
use std::fmt::Write;
use std::slice::Iter;
use walkthroughs::exchange::{Answer, Exchange};
use walkthroughs::run::run;

// Sends calls to a new walkthrough of the depot that a sheet describes.
fn send(heap: Global, sheet: &[u8], exchanges: &mut [Exchange]) -> Result<(), Fault>
    ensures { MatchResult result (λ _. (d : ReadDepot) × AnyRead sheet.now d × (answers : List Kept) × Sent (any_ruled d) (map (λ x. call_of x.call) exchanges.old) answers × (map (λ x. x.answer) exchanges.new ≡ map Some answers)) (AnyTold sheet.now) }
{
    match any_depot::read(heap, sheet)? {
        AnyDepot::Plain(depot) => run(&depot, exchanges)?,
        AnyDepot::Sight(depot) => run(&depot, exchanges)?,
    };
    Ok(())
}

// The answer that stands beside a line: the next one, if the line writes a call.
fn next_answer(line: &Option<OwnCall>, answered: &mut Iter<Exchange>) -> Option<Answer>
    ensures none { is_none line.now ≡ true → (result ≡ None) × (iter_rest answered.new ≡ iter_rest answered.old) }
    ensures some { is_none line.now ≡ false → (result ≡ first_answer (map (λ x. x.answer) (iter_rest answered.old))) × (iter_rest answered.new ≡ drop 1 (iter_rest answered.old)) }
{
    match line {
        Some(_) => answered.next().and_then(|exchange| exchange.answer),
        None => None,
    }
}

// What is printed for the lines of a list of calls: the answers stand in the order of the calls.
fn replies(
    heap: Global,
    lines: &[Option<OwnCall>],
    exchanges: &[Exchange],
) -> Result<Vec<u8>, AllocError>
    ensures { IfOk result (λ v. v.items ≡ replies (as_calls lines.now) (map (λ x. x.answer) exchanges.now)) }
{
    let mut text = String::new(heap);
    let mut answered = exchanges.iter();
    for line in lines {
        let answer = next_answer(line, &mut answered);
        write!(text, "{}", Reply(answer))?;
    }
    Ok(text.into_bytes())
}

// The report on one trial: its answers, or the refusal of its depot sheet.
fn trial_report(heap: Global, trial: &Trial) -> Result<Vec<u8>, AllocError>
    ensures { IfOk result (λ v. TrialReport trial.now.depot.now trial.now.calls.now v.items) }
{
    let lines = calls_of_lines(heap, trial.calls)?;
    let mut exchanges = exchanges(heap, &lines)?;
    match send(heap, trial.depot, &mut exchanges) {
        Ok(()) => replies(heap, &lines, &exchanges),
        // No report tells that memory was wanting, so it stays the error that it was.
        Err(
            Fault {
                refusal: Refusal::NoMemory,
                ..
            },
        ) => Err(AllocError),
        Err(fault) => {
            let sheets = Sheets {
                depot: trial.depot,
                plan: &[],
            };
            refusal_report(heap, &sheets, &fault)
        }
    }
}

// The reports on the trials of an input, with an empty line between two of them.
pub fn report(heap: Global, input: &[u8]) -> Result<Vec<u8>, AllocError>
    ensures { IfOk result (λ v. Report input.now v.items) }
{
    let mut report = Vec::new(heap);
    let mut rest = input;
    while let Some((trial, below)) = first_trial(rest) {
        report.extend_from_slice(&trial_report(heap, &trial)?)?;
        if !below.is_empty() {
            report.push(b'\n')?;
        }
        rest = below;
    }
    Ok(report)
}
