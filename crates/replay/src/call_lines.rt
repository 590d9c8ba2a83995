// How a line of a list of calls is read.
ghost use Rattle.std.specs.Prelude.{◌≡◌, ◌∷◌, IfOk, map};
ghost use Rattle.std.specs.Option.{option_map};
ghost use Rattle.sheets.specs.Pieces.{pieces};
ghost use Rattle.walkthroughs.specs.Exchanges.{call_of};
ghost use Rattle.replay.specs.CallLines.{as_calls, call_of_line, call_of_words, calls_of_lines, number_of, numbers_of, only_number, owned_call, some_calls};

use sheets::lines::Lines;
use std::alloc::{AllocError, Global};
use std::str;
use walkthroughs::exchange::{Call, Exchange};

// A call that owns its move numbers.
#[derive(Drop)]
pub enum OwnCall {
    Step(Vec<usize>),
    Truth(usize),
    Look(usize),
}

impl OwnCall {
    // The call with its numbers lent, and no answer yet.
    pub fn exchange(&self) -> Exchange<'_>
        ensures { call_of result.call ≡ owned_call self.now }
    {
        let call = match self {
            OwnCall::Step(moves) => Call::Step(moves),
            OwnCall::Truth(number) => Call::Truth(*number),
            OwnCall::Look(number) => Call::Look(*number),
        };
        Exchange { call, answer: None }
    }
}

// The number that a word writes in digits, if it fits a machine number. The library would take a sign too.
fn number(word: &str) -> Option<usize>
    ensures { result ≡ number_of word.now }
{
    if word.starts_with('+') {
        return None;
    }
    word.parse().ok()
}

// The numbers that some words write, if each writes one.
fn numbers(heap: Global, words: &[&str]) -> Result<Option<Vec<usize>>, AllocError>
    ensures { IfOk result (λ o. option_map (λ v. v.items) o ≡ numbers_of (map (λ w. w.now) words.now)) }
{
    let mut numbers = Vec::new(heap);
    for word in words {
        let Some(number) = number(word) else {
            return Ok(None);
        };
        numbers.push(number)?;
    }
    Ok(Some(numbers))
}

// The words of a text, parted by single spaces.
fn words(heap: Global, text: &str) -> Result<Vec<&str>, AllocError>
    ensures { IfOk result (λ v. map (λ w. w.now) v.items ≡ pieces 32 text.now) }
{
    text.split(' ').collect(heap)
}

// The number that some words write, if there is but one.
fn only_number(words: &[&str]) -> Option<usize>
    ensures { result ≡ only_number (map (λ w. w.now) words.now) }
{
    match words {
        [word] => number(word),
        _ => None,
    }
}

// The call that a first word and those after it write, if they write one.
fn call_of_words(heap: Global, word: &str, more: &[&str]) -> Result<Option<OwnCall>, AllocError>
    ensures { IfOk result (λ o. option_map owned_call o ≡ call_of_words (word.now ∷ map (λ w. w.now) more.now)) }
{
    match word {
        "step" => Ok(numbers(heap, more)?.map(OwnCall::Step)),
        "truth" => Ok(only_number(more).map(OwnCall::Truth)),
        "look" => Ok(only_number(more).map(OwnCall::Look)),
        _ => Ok(None),
    }
}

// The call that a line writes, if it writes one.
fn call_of_line(heap: Global, line: &[u8]) -> Result<Option<OwnCall>, AllocError>
    ensures { IfOk result (λ o. option_map owned_call o ≡ call_of_line line.now) }
{
    let Ok(text) = str::from_utf8(line) else {
        return Ok(None);
    };
    match words(heap, text)?.split_first() {
        Some((word, more)) => call_of_words(heap, word, more),
        None => Ok(None),
    }
}

// The calls that the lines of a list write, one after the other; none for a line that writes no call.
pub fn calls_of_lines(heap: Global, list: &[u8]) -> Result<Vec<Option<OwnCall>>, AllocError>
    ensures { IfOk result (λ v. as_calls v.items ≡ calls_of_lines list.now) }
{
    let mut calls = Vec::new(heap);
    for line in Lines::of(list) {
        calls.push(call_of_line(heap, line.text)?)?;
    }
    Ok(calls)
}

// The calls that some lines write, each with an empty slot for its answer.
pub fn exchanges<'a>(
    heap: Global,
    lines: &'a [Option<OwnCall>],
) -> Result<Vec<Exchange<'a>>, AllocError>
    ensures { IfOk result (λ v. map (λ x. call_of x.call) v.items ≡ some_calls (as_calls lines.now)) }
{
    let mut exchanges = Vec::new(heap);
    for line in lines {
        if let Some(call) = line {
            exchanges.push(call.exchange())?;
        }
    }
    Ok(exchanges)
}
