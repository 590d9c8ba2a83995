// What others see of a depot: its tables, by number.
ghost use Rattle.std.specs.Prelude.{◌≡◌, map, length};
ghost use Rattle.std.specs.Option.{option_map};
ghost use Rattle.formulas.specs.Shapes.{numbers};
ghost use Rattle.sheets.specs.Numbered.{entry_at};
ghost use Rattle.depots.specs.Moves.{effects_of, end_of, move_named, need_of};
ghost use Rattle.depots.specs.Tables.{effect_of, tables_of};

use crate::depot::{Depot, Effect};
use facts::kinds::Kind;
use formulas::tree::Formula;
use sheets::listed::Name;
use sheets::numbered::entry_at;

impl<K: Kind> Depot<K> {
    // The formula number of the goal, if the depot has one: an empty one has none.
    pub fn goal(&self) -> Option<usize>
        ensures { result ≡ (tables_of self.now).goal }
    {
        self.goal
    }

    // The listed facts.
    pub fn facts(&self) -> &[K::Fact]
        ensures { result.now ≡ (tables_of self.now).facts }
    {
        &self.facts
    }

    // The fact with a number, if it is listed.
    pub fn fact_at(&self, number: usize) -> Option<&K::Fact>
        ensures { option_map (λ x. x.now) result ≡ entry_at (tables_of self.now).facts number }
    {
        entry_at(&self.facts, number)
    }

    // The facts' texts, in the order of the facts.
    pub fn texts(&self) -> &[Name]
        ensures { result.now ≡ (tables_of self.now).texts }
    {
        &self.texts
    }

    // The numbers of the started facts.
    pub fn started(&self) -> &[usize]
        ensures { result.now ≡ (tables_of self.now).started }
    {
        &self.started
    }

    // How many moves are listed.
    pub fn move_count(&self) -> usize
        ensures { result ≡ length (tables_of self.now).moves }
    {
        self.moves.len()
    }

    // The number of the first listed move with a name, if there is one.
    pub fn move_named(&self, name: &[u8]) -> Option<usize>
        ensures { result ≡ move_named (tables_of self.now).names name.now }
    {
        self.moves
            .iter()
            .position(|listed| listed.name.is(name))
            .map(|before| before + 1)
    }

    // The formula number of a move's need, if the move is listed.
    pub fn need_of(&self, number: usize) -> Option<usize>
        ensures { result ≡ need_of (tables_of self.now).moves number }
    {
        entry_at(&self.moves, number).map(|listed| listed.numbers.need)
    }

    // How many effects stand before those of the next move: numbers go from 1 and `get` from 0, so it gets the next one.
    fn effects_end(&self, number: usize) -> usize
        ensures { result ≡ end_of (tables_of self.now).moves (length (tables_of self.now).effects) number }
    {
        let all = self.effects().len();
        self.moves
            .get(number)
            .map_or(all, |next| next.numbers.effects_before)
    }

    // The effects of a move; none for one that is not listed.
    pub fn effects_of(&self, number: usize) -> &[Effect]
        ensures { map effect_of result.now ≡ effects_of (tables_of self.now).moves (tables_of self.now).effects number }
    {
        let Some(listed) = entry_at(&self.moves, number) else {
            return &[];
        };
        let effects = self.effects();
        // Cut to what there is: the ends are in order, but to state that would ask a proof of each line that adds a move or
        // an effect.
        let first = listed.numbers.effects_before.min(effects.len());
        let end = self.effects_end(number).min(effects.len()).max(first);
        &effects[first..end]
    }

    // How many formulas are listed.
    pub fn formula_count(&self) -> usize
        ensures { result ≡ length (tables_of self.now).formulas }
    {
        self.formulas.len()
    }

    // The formula with a number, if it is listed.
    pub fn formula_at(&self, number: usize) -> Option<&Formula<usize>>
        ensures { option_map (λ x. numbers x.now) result ≡ entry_at (tables_of self.now).formulas number }
    {
        entry_at(&self.formulas, number)
    }
}

impl Effect {
    // The formula number of the condition.
    pub fn condition(&self) -> usize
        ensures { result ≡ (effect_of self.now).condition }
    {
        self.condition
    }

    // The numbers of the facts that are set.
    pub fn settings(&self) -> &[usize]
        ensures { result.now ≡ (effect_of self.now).settings }
    {
        self.settings.numbers()
    }

    // The numbers of the facts that are struck.
    pub fn strikes(&self) -> &[usize]
        ensures { result.now ≡ (effect_of self.now).strikes }
    {
        self.strikes.numbers()
    }
}
