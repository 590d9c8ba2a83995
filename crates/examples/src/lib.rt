// Sheets with the verdicts that the rules give them, worked out by hand.
#![tactic(auto)]

#[cfg(test)]
mod depot_sheets;
#[cfg(test)]
mod fact_fields;
#[cfg(test)]
mod full_sheets;
#[cfg(test)]
mod pairs;
#[cfg(test)]
mod plan_sheets;
#[cfg(test)]
mod replies;
#[cfg(test)]
mod sheet_rows;
#[cfg(test)]
mod shown_lines;
#[cfg(test)]
mod verdicts;
#[cfg(test)]
mod worked_calls;
