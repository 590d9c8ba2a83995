// A depot sheet, read line by line.
ghost use Rattle.std.specs.Prelude.{◌≡◌, IfOk, MatchResult};
ghost use Rattle.depots.specs.Kinds.{meaning_of};
ghost use Rattle.depots.specs.Spelling.{DepotRead, DepotTold};
ghost use Rattle.depots.specs.Tables.{no_tables, room_of, tables_of};
ghost use Rattle.depots.specs.Wrong.{most_effects};

use crate::depot::{Depot, Effect};
use crate::effect_table::MOST_EFFECTS;
use crate::troubles::at_line;
use facts::text_kinds::TextKind;
use sheets::faults::{Fault, Sheet};
use sheets::layout::{Above, judge_limit};
use sheets::lines::Lines;
use std::alloc::{AllocError, Global};

impl<K: TextKind> Depot<K> {
    // Empties the depot and makes room for as many effects as a sheet may have, unless memory is wanting.
    fn begin(&mut self, heap: Global) -> Result<(), AllocError>
        ensures tables { tables_of self.new ≡ no_tables }
        ensures room { IfOk result (λ _. room_of self.new ≡ most_effects) }
    {
        *self = Depot::empty(heap);
        self.effects = vec![in heap; Effect::none(); MOST_EFFECTS]?;
        Ok(())
    }

    // Reads the lines of a sheet into an empty depot.
    fn read_lines(&mut self, heap: Global, sheet: &[u8]) -> Result<(), Fault>
        requires { tables_of self.old ≡ no_tables }
        ensures { MatchResult result (λ _. DepotRead (meaning_of K.Kind K.reading_under) sheet.now (tables_of self.new)) (DepotTold (meaning_of K.Kind K.reading_under) sheet.now) }
    {
        judge_limit(sheet)?;
        let mut above = Above::nothing();
        for (i, line) in Lines::of(sheet).enumerate() {
            let number = i + 1;
            let letter = self
                .read_line(heap, &above, &line)
                .map_err(|refusal| at_line(Sheet::Depot, number, refusal))?;
            above = above.below(&line, letter);
        }
        above.judge_end(sheet)
    }

    // Reads a depot sheet: the depot then has the tables that the sheet spells, or the sheet is refused for its lowest fault
    // and the depot is empty.
    pub fn read(&mut self, heap: Global, sheet: &[u8]) -> Result<(), Fault>
        ensures { MatchResult result (λ _. DepotRead (meaning_of K.Kind K.reading_under) sheet.now (tables_of self.new)) (λ f. DepotTold (meaning_of K.Kind K.reading_under) sheet.now f × (tables_of self.new ≡ no_tables)) }
    {
        self.begin(heap)
            .map_err(|error| at_line(Sheet::Depot, 0, error.into()))?;
        let read = self.read_lines(heap, sheet);
        // No `inspect_err`, since no clause says that its closure leaves the depot as it is where no error calls it.
        if read.is_err() {
            *self = Depot::empty(heap);
        }
        read
    }
}
