// A depot: the tables that its sheet lists, everything numbered in the order of the sheet. Only `read` fills one, so every
// number in a table is that of a listed entry. It stands alone here, since the definitions that speak of it are imported by
// the rest.
ghost use Rattle.std.specs.Prelude.{◌≤◌, vec_len};

use crate::fact_list::FactList;
use facts::kinds::Kind;
use facts::names::Names;
use formulas::tree::Formula;
use sheets::listed::Name;

// A move (an action): the number of its need's formula (its precondition), and how many effects stand before its own.
#[derive(Clone, Copy)]
pub struct Move {
    pub(crate) need: usize,
    pub(crate) effects_before: usize,
}

// A move with the name that its line lists. Apart from `Move`, which can be copied and with a name inside could not.
#[derive(Drop)]
pub struct NamedMove {
    pub(crate) name: Name,
    pub(crate) numbers: Move,
}

// An effect of a move (a conditional effect): its condition, and what it sets and strikes. In the table the condition is the
// number of its formula; of a line that is read it is the formula, which has no number before it is listed.
#[derive(Clone, Copy, Drop)]
pub struct Effect<C = usize> {
    pub(crate) condition: C,
    pub(crate) settings: FactList,
    pub(crate) strikes: FactList,
}

// The tables of one sheet. The table of effects is lent and filled in place: it has room for all that a sheet may have, and
// places past the count hold nothing of note. The facts' texts stand beside the facts, since these are lent as a slice of
// their own; the acceptance of a plan prints the texts. The goal is the number of its formula; a depot that is empty has
// none. Contracts see a depot by `tables_of` and not by a model: a model's value needs a code, and the formulas of the
// specification have none.
#[derive(Drop)]
pub struct Depot<K: Kind> {
    pub(crate) names: Names,
    pub(crate) facts: Vec<K::Fact>,
    pub(crate) texts: Vec<Name>,
    pub(crate) started: Vec<usize>,
    pub(crate) moves: Vec<NamedMove>,
    pub(crate) effects: Vec<Effect>,
    pub(crate) effect_count: usize,
    pub(crate) formulas: Vec<Formula<usize>>,
    pub(crate) formula_size: usize,
    pub(crate) goal: Option<usize>,
    ghost few: { vec_len facts ≤ 128 },
}
