// The lines that name the kind, list zones, matters and facts, and start facts: a function each, since each has a promise
// of its own.
ghost use Rattle.sheets.specs.declared.letters.Letter.TheVariants as letter;
ghost use Rattle.depots.specs.Taking.{TakesLine};

use crate::depot::Depot;
use crate::entries::{list_fact, list_name, start_fact};
use crate::fields::Fields;
use crate::troubles::{Trouble, only};
use facts::listed_facts::ListedFacts;
use facts::text_kinds::TextKind;
use sheets::refusals::Refusal;
use std::alloc::Global;

const MOST_ZONES: usize = 12;

const MOST_MATTERS: usize = 64;

impl<K: TextKind> Depot<K> {
    pub(crate) fn take_kind(&self, fields: Fields) -> Result<(), Refusal>
        ensures { TakesLine K.Kind K.reading_under self.now letter.Kind fields.entry result self.now }
    {
        if !K::is_word(fields.second) {
            return Err(only(Trouble::NotItsForm));
        }
        Ok(())
    }

    pub(crate) fn take_zone(&mut self, heap: Global, fields: Fields) -> Result<(), Refusal>
        ensures { TakesLine K.Kind K.reading_under self.old letter.Zone fields.entry result self.new }
    {
        list_name(heap, &mut self.names.zones, MOST_ZONES, fields.second)
    }

    pub(crate) fn take_matter(&mut self, heap: Global, fields: Fields) -> Result<(), Refusal>
        ensures { TakesLine K.Kind K.reading_under self.old letter.Matter fields.entry result self.new }
    {
        list_name(heap, &mut self.names.matters, MOST_MATTERS, fields.second)
    }

    pub(crate) fn take_fact(&mut self, heap: Global, fields: Fields) -> Result<(), Refusal>
        ensures { TakesLine K.Kind K.reading_under self.old letter.Fact fields.entry result self.new }
    {
        list_fact::<K>(
            heap,
            &self.names,
            &mut self.facts,
            &mut self.texts,
            fields.second,
        )
    }

    pub(crate) fn take_start(&mut self, fields: Fields) -> Result<(), Refusal>
        ensures { TakesLine K.Kind K.reading_under self.old letter.Start fields.entry result self.new }
    {
        // Not by `listed()`, which would borrow the started facts too.
        let listed = ListedFacts::<K> {
            names: &self.names,
            facts: &self.facts,
        };
        start_fact(&listed, &mut self.started, fields.second)
    }
}
