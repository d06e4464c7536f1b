//! Tests of what is reported of a message, of a replay and of a capture: the crates `decision_table`, `report` and
//! `inspection`. What a text shows stands in the rows of `tests/`.
#![tactic(auto)]

#[cfg(test)]
mod failing_inspections;
#[cfg(test)]
mod report_outcomes;
#[cfg(test)]
mod report_rows;
#[cfg(test)]
mod row_limits;
