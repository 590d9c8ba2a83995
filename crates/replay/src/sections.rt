// The input cut at its empty lines: depot sheets, each with its list of calls.
ghost use Rattle.std.specs.Prelude.{◌≡◌, ◌<◌, [], length, MatchOption};
ghost use Rattle.replay.specs.Sections.{FirstTrial, above_empty, below_empty, from_empty};

use sheets::lines::first_line;

// A depot sheet and a list of calls on it, each as its lines stand in the input.
#[derive(Clone, Copy)]
pub struct Trial<'a> {
    pub depot: &'a [u8],
    pub calls: &'a [u8],
}

// What stands from the first empty line on; nothing where there is none.
fn from_empty_line(input: &[u8]) -> &[u8]
    ensures { result.now ≡ from_empty input.now }
{
    let mut rest = input;
    while let Some((line, below)) = first_line(rest) {
        if line.text.is_empty() {
            break;
        }
        rest = below;
    }
    rest
}

// The lines above the first empty line, and what stands below it.
fn cut(input: &[u8]) -> (&[u8], &[u8])
    ensures above { result.0.now ≡ above_empty input.now }
    ensures below { result.1.now ≡ below_empty input.now }
{
    let closed = from_empty_line(input);
    let (section, _) = input.split_at(input.len() - closed.len());
    (section, closed.get(1..).unwrap_or(&[]))
}

// The first trial of an input and what stands below it, or none where the input has no byte.
pub fn first_trial<'a>(input: &'a [u8]) -> Option<(Trial<'a>, &'a [u8])>
    ensures { MatchOption result (input.now ≡ []) (λ x. FirstTrial input.now x.0.depot.now x.0.calls.now x.1.now) }
{
    if input.is_empty() {
        return None;
    }
    let (depot, below) = cut(input);
    let (calls, rest) = cut(below);
    Some((Trial { depot, calls }, rest))
}
