// A list of listed facts, by their numbers. It stands alone here, since the definitions that speak of it are imported by the rest.
use facts::short_list::ShortList;

// The most facts in a list.
pub const MOST: usize = 8;

// The facts that an effect sets or strikes. No other name for the list alone: callers have `none` and `numbers` of it.
#[derive(Clone, Copy)]
pub struct FactList {
    pub(crate) kept: ShortList<usize, MOST>,
}
