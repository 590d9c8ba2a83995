// A depot, as it is read from its sheet.
#![tactic(auto)]

pub mod any_depot;
pub mod depot;
mod effect_table;
mod empty;
pub mod entries;
pub mod fact_list;
pub mod fields;
mod formula_field;
mod growing;
pub mod laws;
mod line_reader;
mod listing_lines;
mod move_lines;
pub mod settings;
mod sheet_reader;
pub mod troubles;
mod under;
mod views;
