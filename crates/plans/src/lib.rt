// A plan, as it is read from its sheet.
#![tactic(auto)]

pub mod laws;
pub mod plan;
pub mod plan_reader;
pub mod runner;
mod step_line;
