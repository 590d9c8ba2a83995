// A depot at a moment. It stands alone here, since the definitions that speak of it are imported by the rest.
use crate::marks::Row;
use depots::depot::Depot;
use facts::kinds::Kind;

// A depot, and which of its facts stand.
#[derive_where(Clone, Copy)]
pub(crate) struct Moment<'a, K: Kind> {
    pub(crate) depot: &'a Depot<K>,
    pub(crate) row: &'a Row,
}
