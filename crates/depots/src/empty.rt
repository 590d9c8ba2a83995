// An empty depot: one that was never filled, or whose sheet was refused.
ghost use Rattle.std.specs.Prelude.{◌≡◌, is_none};
ghost use Rattle.depots.specs.Tables.{kept_effects, no_tables, tables_of};

use crate::depot::Depot;
use facts::kinds::Kind;
use facts::names::Names;
use std::alloc::Global;

impl<K: Kind> Depot<K> {
    // A depot with nothing in it.
    pub fn empty(heap: Global) -> Depot<K>
        ensures tables { tables_of result ≡ no_tables }
        ensures effects { kept_effects result ≡ 0 }
    {
        Depot {
            names: Names {
                zones: Vec::new(heap),
                matters: Vec::new(heap),
            },
            facts: Vec::new(heap),
            texts: Vec::new(heap),
            started: Vec::new(heap),
            moves: Vec::new(heap),
            effects: Vec::new(heap),
            effect_count: 0,
            formulas: Vec::new(heap),
            formula_size: 0,
            goal: None,
        }
    }

    // Whether nothing was read into the depot: it has no goal.
    pub fn is_empty(&self) -> bool
        ensures { result ≡ is_none (tables_of self.now).goal }
    {
        self.goal.is_none()
    }
}
