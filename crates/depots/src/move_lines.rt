// The lines of moves, their effects and the goal.
ghost use Rattle.sheets.specs.declared.letters.Letter.TheVariants as letter;
ghost use Rattle.std.specs.Prelude.{Decides};
ghost use Rattle.depots.specs.MoveLines.{EffectRead, EffectsFull, GoalRead, NeedRead};
ghost use Rattle.depots.specs.Tables.{tables_of};
ghost use Rattle.depots.specs.Taking.{ReadsLine, TakesLine};

use crate::depot::{Depot, Effect};
use crate::effect_table::{MOST_EFFECTS, MOST_OF_MOVE};
use crate::fields::Fields;
use crate::formula_field::NewFormula;
use crate::troubles::{at_field, both, only, refuse_if_full};
use facts::text_kinds::TextKind;
use sheets::refusals::Refusal;
use std::alloc::Global;

const MOST_MOVES: usize = 64;

impl<K: TextKind> Depot<K> {
    // The need of a move that a line lists.
    fn read_move(&self, heap: Global, fields: Fields) -> Result<NewFormula, Refusal>
        ensures { ReadsLine K.Kind K.reading_under self.now letter.Move fields.entry NeedRead result }
    {
        let (_, need) = both(
            at_field(2, self.new_move_name(fields.second)),
            at_field(3, self.formula(heap, fields.third)?),
        )?;
        refuse_if_full(self.moves.len() >= MOST_MOVES)?;
        need.added_to(self.formula_size)
    }

    pub(crate) fn take_move(&mut self, heap: Global, fields: Fields) -> Result<(), Refusal>
        ensures { TakesLine K.Kind K.reading_under self.old letter.Move fields.entry result self.new }
    {
        let need = self.read_move(heap, fields)?;
        self.push_formula(need)?;
        self.push_move(heap, fields.second)?;
        Ok(())
    }

    // Whether the last move has as many effects as it may, or the table of effects is full.
    fn effects_full(&self) -> bool
        ensures { Decides result (EffectsFull (tables_of self.now)) }
    {
        let count = self.effects().len();
        count >= MOST_EFFECTS || count.saturating_sub(self.before_last()) >= MOST_OF_MOVE
    }

    // The effect that a line lists.
    fn read_effect(&self, heap: Global, fields: Fields) -> Result<Effect<NewFormula>, Refusal>
        ensures { ReadsLine K.Kind K.reading_under self.now letter.Effect fields.entry EffectRead result }
    {
        let (condition, (settings, strikes)) = both(
            at_field(2, self.formula(heap, fields.second)?),
            both(
                at_field(3, self.listed_facts(fields.third)),
                at_field(4, self.listed_facts(fields.fourth)),
            ),
        )?;
        refuse_if_full(self.effects_full())?;
        Ok(Effect {
            condition: condition.added_to(self.formula_size)?,
            settings,
            strikes,
        })
    }

    pub(crate) fn take_effect(&mut self, heap: Global, fields: Fields) -> Result<(), Refusal>
        ensures { TakesLine K.Kind K.reading_under self.old letter.Effect fields.entry result self.new }
    {
        let Effect {
            condition,
            settings,
            strikes,
        } = self.read_effect(heap, fields)?;
        self.push_formula(condition)?;
        self.push_effect(settings, strikes)?;
        Ok(())
    }

    // The goal that a line has.
    fn read_goal(&self, heap: Global, fields: Fields) -> Result<NewFormula, Refusal>
        ensures { ReadsLine K.Kind K.reading_under self.now letter.Goal fields.entry GoalRead result }
    {
        let goal = self.formula(heap, fields.second)?.map_err(only)?;
        goal.added_to(self.formula_size)
    }

    pub(crate) fn take_goal(&mut self, heap: Global, fields: Fields) -> Result<(), Refusal>
        ensures { TakesLine K.Kind K.reading_under self.old letter.Goal fields.entry result self.new }
    {
        let goal = self.read_goal(heap, fields)?;
        self.push_formula(goal)?;
        self.goal = Some(self.formulas.len());
        Ok(())
    }
}
