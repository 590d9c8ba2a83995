// What the checker prints.
#![tactic(auto)]

pub mod accepted;
pub mod check;
pub mod laws;
pub mod refused;
mod shown;
