// The facts of the sight kind. The types stand alone here, since the definitions that speak of them are imported by the rest.
use crate::short_list::ShortList;

// The most watchers that stand before a matter.
pub const MOST_WATCHERS: usize = 5;

// A watcher (a visibility operator) is who sees: every zone jointly, or the listed zone at an index counted from 0.
#[derive(Clone, Copy, Debug, PartialEq, Eq)]
pub enum Watcher {
    All,
    Zone(usize),
}

// A fact (an atom): its watchers in their order, then the listed matter that they see.
#[derive(Clone, Copy)]
pub struct SightFact {
    pub watchers: ShortList<Watcher, MOST_WATCHERS>,
    pub matter: usize,
}
