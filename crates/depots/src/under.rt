// Fields read under the tables that the lines above have filled.
ghost use Rattle.std.specs.Prelude.{◌≡◌, map, IfOk};
ghost use Rattle.std.specs.Result.{result_err};
ghost use Rattle.depots.specs.Fields.{new_name};
ghost use Rattle.depots.specs.FormulaFields.{FormulaRead};
ghost use Rattle.depots.specs.Kinds.{meaning_of};
ghost use Rattle.depots.specs.Settings.{Comes, list_reading};
ghost use Rattle.depots.specs.Tables.{effect_of, tables_of};
ghost use Rattle.depots.specs.Wrong.{before_last, number_among};

use crate::depot::{Depot, Effect};
use crate::fact_list::FactList;
use crate::fields::{refuse_if_listed, refuse_if_no_name};
use crate::formula_field::{SizedFormula, formula_field};
use crate::settings::fact_list;
use crate::troubles::Trouble;
use facts::kinds::Kind;
use facts::listed_facts::ListedFacts;
use facts::text_kinds::TextKind;
use std::alloc::{AllocError, Global};

impl<K: TextKind> Depot<K> {
    // What a field with a formula holds.
    pub(crate) fn formula(
        &self,
        heap: Global,
        text: &[u8],
    ) -> Result<Result<SizedFormula, Trouble>, AllocError>
        ensures { IfOk result (FormulaRead (number_among (meaning_of K.Kind K.reading_under) (tables_of self.now)) text.now) }
    {
        formula_field(heap, &self.listed(), text)
    }

    // The facts that a field of settings or strikes lists.
    pub(crate) fn listed_facts(&self, text: &[u8]) -> Result<FactList, Trouble>
        ensures { Comes (list_reading (number_among (meaning_of K.Kind K.reading_under) (tables_of self.now)) text.now) result }
    {
        fact_list(&self.listed(), text)
    }
}

impl<K: Kind> Depot<K> {
    // The facts listed so far, with the names that they are read under.
    fn listed(&self) -> ListedFacts<'_, K>
        ensures names { result.names.now ≡ self.now.names }
        ensures facts { result.facts.now ≡ self.now.facts.items }
    {
        ListedFacts {
            names: &self.names,
            facts: &self.facts,
        }
    }

    // What is wrong with a field that names a new move, if anything is.
    pub(crate) fn new_move_name(&self, text: &[u8]) -> Result<(), Trouble>
        ensures { result_err result ≡ new_name (tables_of self.now).names text.now }
    {
        refuse_if_no_name(text)?;
        refuse_if_listed(self.moves.iter().any(|listed| listed.name.is(text)))
    }

    // The effects so far. Cut to the table: that the count is within it would ask a proof of each line that adds an effect.
    pub(crate) fn effects(&self) -> &[Effect]
        ensures { map effect_of result.now ≡ (tables_of self.now).effects }
    {
        let count = self.effect_count.min(self.effects.len());
        &self.effects[..count]
    }

    // How many effects stand before those of the last move.
    pub(crate) fn before_last(&self) -> usize
        ensures { result ≡ before_last (tables_of self.now).moves }
    {
        self.moves
            .last()
            .map_or(0, |last| last.numbers.effects_before)
    }
}
