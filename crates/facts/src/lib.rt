// Facts and their kinds: how a fact is read, which facts are the same, which carries which, which are always true.
#![tactic(auto)]

pub mod added_marks;
pub mod kinds;
pub mod listed;
pub mod listed_facts;
mod marks;
pub mod meaning;
pub mod names;
pub mod plain;
pub mod short_list;
pub mod sight;
mod sight_text;
pub mod sighted;
pub mod spelled_kinds;
#[cfg(test)]
mod tests;
pub mod text_kinds;
mod watchers;
