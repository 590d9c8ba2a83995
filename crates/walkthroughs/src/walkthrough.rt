// A walkthrough. It stands alone here, since the definitions that speak of it are imported by the rest.
use crate::marks::Marks;

// A walkthrough of a depot (an execution that is under way): which facts stand. Every call is shown the depot anew, and takes
// the standing facts by number.
#[derive(Drop)]
pub struct Walkthrough {
    pub(crate) marks: Marks,
}
