// One line of a plan sheet, which is a step, read under the names of the listed moves.
ghost use Rattle.std.specs.Prelude.{◌≡◌, ◌≤◌, ℕ, length, Some, MatchResult};
ghost use Rattle.sheets.specs.declared.refusals.Refusal.TheVariants.{NotListed};
ghost use Rattle.sheets.specs.Lines.{shown};
ghost use Rattle.sheets.specs.Pieces.{pieces};
ghost use Rattle.depots.specs.Tables.{tables_of};
ghost use Rattle.plans.specs.Fields.{First, NoName, Repeated, Unlisted};
ghost use Rattle.plans.specs.Plans.{moves_of};
ghost use Rattle.plans.specs.Spelling.{NameMoves, StepRead};

use crate::plan::{MOST_MOVES, Step};
use depots::depot::Depot;
use depots::troubles::refuse_if_full;
use facts::kinds::Kind;
use facts::short_list::ShortList;
use sheets::layout::{TAB, is_legible};
use sheets::lines::Line;
use sheets::names::is_name;
use sheets::pieces;
use sheets::refusals::Refusal;

// The most steps of a plan.
const MOST_STEPS: usize = 64;

// The first field that is no name.
fn no_name(text: &[u8]) -> Option<usize>
    ensures { First (NoName (pieces 9 text.now)) result }
{
    text.split(|b| *b == TAB)
        .position(|field| !is_name(field))
        .map(|before| before + 1)
}

// The moves that the fields of a line name, or the first field that names none. The text is cut by hand, as that of a list
// of facts is, since the check refuses a `for` over `split` in a function with a type parameter.
fn named_moves<K: Kind>(depot: &Depot<K>, text: &[u8]) -> Result<Step, Refusal>
    requires { length (pieces 9 text.now) ≤ 8 }
    ensures { MatchResult result (λ step. NameMoves (tables_of depot.now).names (pieces 9 text.now) (moves_of step)) (λ w. (field : ℕ) × (w ≡ NotListed field) × First (Unlisted (tables_of depot.now).names (pieces 9 text.now)) (Some field)) }
{
    let mut moves = ShortList::none(0);
    let mut rest = Some(text);
    while let Some(more) = rest {
        let (name, after) = pieces::cut(more, TAB);
        let number = depot.move_named(name).ok_or(Refusal::NotListed {
            field: moves.entries().len() + 1,
        })?;
        moves.push(number).unwrap();
        rest = after;
    }
    Ok(Step { moves })
}

// The first place whose move stands at a place before it too.
fn repeated_move(moves: &[usize]) -> Option<usize>
    ensures { First (Repeated moves.now) result }
{
    moves
        .iter()
        .enumerate()
        .position(|(i, number)| moves[..i].contains(number))
        .map(|before| before + 1)
}

// The step that a line is below so many others, or the lowest thing that is wrong with it.
pub(crate) fn read_step<K: Kind>(
    depot: &Depot<K>,
    above: usize,
    line: &Line,
) -> Result<Step, Refusal>
    ensures { StepRead (tables_of depot.now).names above (shown line.now) result }
{
    if !is_legible(line) {
        return Err(Refusal::BadLine);
    }
    if pieces::count(line.text, TAB) > MOST_MOVES {
        return Err(Refusal::FieldCount);
    }
    if let Some(field) = no_name(line.text) {
        return Err(Refusal::NotItsForm { field });
    }
    let step = named_moves(depot, line.text)?;
    if let Some(field) = repeated_move(step.moves()) {
        return Err(Refusal::Twice { field });
    }
    refuse_if_full(above >= MOST_STEPS)?;
    Ok(step)
}
