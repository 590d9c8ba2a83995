// One line of a depot sheet, read below the lines above it.
ghost use Rattle.std.specs.Prelude.{◌≡◌, [], slice_index_or};
ghost use Rattle.sheets.specs.Lines.{shown};
ghost use Rattle.sheets.specs.Pieces.{pieces};
ghost use Rattle.depots.specs.Kinds.{meaning_of};
ghost use Rattle.depots.specs.Spelling.{LineAdded, fields_on};
ghost use Rattle.depots.specs.Tables.{tables_of};
ghost use Rattle.depots.specs.Taking.{TakesLine};
ghost use Rattle.depots.specs.Wrong.{shown_fields};

use crate::depot::Depot;
use crate::fields::Fields;
use facts::text_kinds::TextKind;
use sheets::layout::{Above, TAB};
use sheets::letters::Letter;
use sheets::lines::Line;
use sheets::pieces;
use sheets::refusals::Refusal;
use std::alloc::Global;

// The field at an index counted from 0, empty where there is none.
fn field<'a>(text: &'a [u8], index: usize) -> &'a [u8]
    ensures { result.now ≡ slice_index_or (pieces 9 text.now) index [] }
{
    pieces::piece(text, TAB, index).unwrap_or(&[])
}

// The fields of a line after its letter.
fn fields_of<'a>(line: &Line<'a>) -> Fields<'a>
    ensures { shown_fields result ≡ fields_on (shown line.now) }
{
    Fields {
        second: field(line.text, 1),
        third: field(line.text, 2),
        fourth: field(line.text, 3),
    }
}

impl<K: TextKind> Depot<K> {
    // Takes a line with a letter into the tables.
    fn take(&mut self, heap: Global, letter: Letter, fields: Fields) -> Result<(), Refusal>
        ensures { TakesLine K.Kind K.reading_under self.old letter fields.entry result self.new }
    {
        // A match, since the letters are a closed list, and closures in a table would borrow the depot all at once.
        match letter {
            Letter::Kind => self.take_kind(fields),
            Letter::Zone => self.take_zone(heap, fields),
            Letter::Matter => self.take_matter(heap, fields),
            Letter::Fact => self.take_fact(heap, fields),
            Letter::Start => self.take_start(fields),
            Letter::Move => self.take_move(heap, fields),
            Letter::Effect => self.take_effect(heap, fields),
            Letter::Goal => self.take_goal(heap, fields),
        }
    }

    // Reads a line into the tables, and tells its letter.
    pub(crate) fn read_line(
        &mut self,
        heap: Global,
        above: &Above,
        line: &Line,
    ) -> Result<Letter, Refusal>
        ensures { LineAdded (meaning_of K.Kind K.reading_under) (tables_of self.old) above.now (shown line.now) result (tables_of self.new) }
    {
        let letter = above.judge_letter(line)?;
        self.take(heap, letter, fields_of(line))?;
        Ok(letter)
    }
}
