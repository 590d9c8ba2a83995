// The layout of a depot sheet: its bytes, letters and numbers of fields, judged line by line below the lines above.
ghost use Rattle.std.specs.Prelude.{◌≡◌, ◌≢◌, ◌<◌, ◌≤◌, ◌||◌, [], length, Some, Decides, MatchResult};
ghost use Rattle.sheets.specs.declared.faults.Sheet.TheVariants.{Depot};
ghost use Rattle.sheets.specs.declared.letters.Letter.TheVariants.{Goal};
ghost use Rattle.sheets.specs.declared.refusals.Refusal.TheVariants.{OverLimit, NoGoal};
ghost use Rattle.sheets.specs.Bytes.{every};
ghost use Rattle.sheets.specs.Faults.{Lowest};
ghost use Rattle.sheets.specs.Layout.{depot_limit, allowed, legible, letter_on, says_sight, above_of, LayoutFault};
ghost use Rattle.sheets.specs.Letters.{permitted};
ghost use Rattle.sheets.specs.Lines.{shown, lines_of};

use crate::faults::{Fault, Sheet};
use crate::letters::{Letter, letter_here};
use crate::lines::{Line, Lines};
use crate::pieces;
use crate::refusals::Refusal;

// The most bytes of a depot sheet.
pub const DEPOT_LIMIT: usize = 32768;

// The most bytes of a line before its end.
const LINE_LIMIT: usize = 240;

// The byte that parts the fields of a line.
pub const TAB: u8 = b'\t';

// What the lines above say of the next: the letter right above it, and whether the sheet is of the sight kind.
#[derive(Clone, Copy)]
pub struct Above {
    pub letter: Option<Letter>,
    pub sight: bool,
}

// Whether a text has only bytes that a line may have: tabs between its fields, and 33 to 126.
fn has_allowed_bytes(text: &[u8]) -> bool
    ensures { result ≡ every allowed text.now }
{
    text.iter().all(|b| matches!(*b, TAB | 33..=126))
}

// Whether a line has its end, is not too long and has no byte that is not allowed.
pub fn is_legible(line: &Line) -> bool
    ensures { result ≡ legible (shown line.now) }
{
    line.ended && line.text.len() <= LINE_LIMIT && has_allowed_bytes(line.text)
}

// Whether a line says that the sheet is of the sight kind.
pub fn says_sight(line: &Line) -> bool
    ensures { result ≡ says_sight (shown line.now) }
{
    line.text == b"K\tsight".as_slice()
}

impl Above {
    // Above line 1.
    pub fn nothing() -> Above
        ensures { result ≡ above_of [] }
    {
        Above {
            letter: None,
            sight: false,
        }
    }

    // Whether the line right above is the goal.
    pub fn is_goal(&self) -> bool
        ensures { Decides result (self.now.letter ≡ Some Goal) }
    {
        matches!(self.letter, Some(Letter::Goal))
    }

    // The letter of a line, if it may come here.
    fn letter_on(&self, line: &Line) -> Option<Letter>
        ensures { result ≡ permitted self.now.letter self.now.sight (letter_on (shown line.now)) }
    {
        match pieces::cut(line.text, TAB) {
            ([byte], _) => letter_here(*byte, self.letter, self.sight),
            _ => None,
        }
    }

    // The letter of a line that is laid out as it should be, or the lowest thing that is wrong with its layout.
    pub fn judge_letter(&self, line: &Line) -> Result<Letter, Refusal>
        ensures { MatchResult result (λ k. (letter_on (shown line.now) ≡ Some k) × ((w : Refusal) → LayoutFault self.now (shown line.now) w → ⊥)) (λ w. Lowest (LayoutFault self.now (shown line.now)) w) }
    {
        if !is_legible(line) {
            return Err(Refusal::BadLine);
        }
        let letter = self.letter_on(line).ok_or(Refusal::BadLetter)?;
        if !pieces::has_pieces(line.text, TAB, letter.fields()) {
            return Err(Refusal::FieldCount);
        }
        Ok(letter)
    }

    // What stands above the next line, if this one has a letter.
    pub fn below(&self, line: &Line, letter: Letter) -> Above
        ensures letter { result.letter ≡ Some letter }
        ensures sight { result.sight ≡ (self.now.sight || says_sight (shown line.now)) }
    {
        Above {
            letter: Some(letter),
            sight: self.sight || says_sight(line),
        }
    }

    // The end of a depot sheet below this: right, or refused for want of its goal.
    pub fn judge_end(&self, sheet: &[u8]) -> Result<(), Fault>
        ensures { MatchResult result (λ _. self.now.letter ≡ Some Goal) (λ f. (self.now.letter ≢ Some Goal) × (f.sheet ≡ Some Depot) × (f.line ≡ length (lines_of sheet.now)) × (f.refusal ≡ NoGoal)) }
    {
        if !self.is_goal() {
            let count = Lines::of(sheet).count();
            return Err(Fault::on(Sheet::Depot, count, Refusal::NoGoal));
        }
        Ok(())
    }
}

// The size of a depot sheet: within its limit, or refused before any line.
pub fn judge_limit(sheet: &[u8]) -> Result<(), Fault>
    ensures { MatchResult result (λ _. length sheet.now ≤ depot_limit) (λ f. (depot_limit < length sheet.now) × (f.sheet ≡ Some Depot) × (f.line ≡ 0) × (f.refusal ≡ OverLimit)) }
{
    if sheet.len() > DEPOT_LIMIT {
        return Err(Fault::on(Sheet::Depot, 0, Refusal::OverLimit));
    }
    Ok(())
}
