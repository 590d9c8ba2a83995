// Walkthroughs of a depot: the rules of a step, and the law of whole runs.
#![tactic(auto)]

mod after;
mod by_number;
pub mod calls;
mod contradiction;
mod disturbance;
mod disturbing_sets;
mod each_move;
pub mod exchange;
pub mod firing;
mod judge;
pub mod kinds;
pub mod laws;
pub mod marks;
mod moment;
mod over_sets;
mod parts;
mod rows;
pub mod run;
mod set_rows;
mod sets;
mod start;
pub mod walkthrough;
pub mod worked;
