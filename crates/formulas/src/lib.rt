// Formulas: needs, conditions and the goal.
#![tactic(auto)]

pub mod laws;
mod marks;
mod reader;
pub mod reading;
pub mod resolve;
pub mod size;
#[cfg(test)]
mod tests;
pub mod tree;
pub mod truth;
