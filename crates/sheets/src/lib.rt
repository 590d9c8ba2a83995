// The sheets as text: their lines, fields and names, how their entries are numbered, and what is told of a faulty one.
#![tactic(auto)]

pub mod faults;
pub mod faulty_line;
pub mod laws;
pub mod layout;
pub mod letters;
pub mod lines;
pub mod listed;
pub mod names;
pub mod numbered;
pub mod pieces;
pub mod refusals;
