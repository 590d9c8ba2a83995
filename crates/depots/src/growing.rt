// Entries put into the tables of a depot. Only want of memory keeps one out.
ghost use Rattle.std.specs.Prelude.{◌≡◌, [], ◌∷◌, ◌++◌, length, IfOk};
ghost use Rattle.depots.specs.FormulaFields.{with_formula};
ghost use Rattle.depots.specs.Settings.{numbers_of};
ghost use Rattle.depots.specs.Tables.{tables_of, with_effects, with_moves};

use crate::depot::{Depot, Effect, Move, NamedMove};
use crate::effect_table::fill;
use crate::fact_list::FactList;
use crate::formula_field::NewFormula;
use facts::kinds::Kind;
use sheets::listed::Name;
use std::alloc::{AllocError, Global};

impl<K: Kind> Depot<K> {
    // One formula more, which is then listed last.
    pub(crate) fn push_formula(&mut self, new: NewFormula) -> Result<(), AllocError>
        ensures { IfOk result (λ _. tables_of self.new ≡ with_formula (tables_of self.old) new) }
    {
        let NewFormula { formula, total } = new;
        self.formulas.push(formula)?;
        self.formula_size = total;
        Ok(())
    }

    // One move more, whose need is the formula listed last.
    pub(crate) fn push_move(&mut self, heap: Global, name: &[u8]) -> Result<(), AllocError>
        ensures { let t = tables_of self.old in IfOk result (λ _. tables_of self.new ≡ with_moves t (t.names ++ name.now ∷ []) (t.moves ++ record { need = length t.formulas; effects_before = length t.effects } ∷ [])) }
    {
        let name = Name::new(heap, name)?;
        let numbers = Move {
            need: self.formulas.len(),
            effects_before: self.effects().len(),
        };
        self.moves.push(NamedMove { name, numbers })?;
        Ok(())
    }

    // One effect more, whose condition is the formula listed last.
    pub(crate) fn push_effect(
        &mut self,
        settings: FactList,
        strikes: FactList,
    ) -> Result<(), AllocError>
        ensures { let t = tables_of self.old in IfOk result (λ _. tables_of self.new ≡ with_effects t (t.effects ++ record { condition = length t.formulas; settings = numbers_of settings; strikes = numbers_of strikes } ∷ [])) }
    {
        let new = Effect {
            condition: self.formulas.len(),
            settings,
            strikes,
        };
        self.effect_count = fill(&mut self.effects, self.effect_count, new)?;
        Ok(())
    }
}
