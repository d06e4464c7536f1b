//! A table of decisions in CSV: a heading, and a row for each message.
#![tactic(auto)]

mod line;
mod row;
mod table;
mod text;

pub use row::{Offered, Row};
pub use table::{write_heading, write_row};
