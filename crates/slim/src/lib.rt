//! Recorded traffic without what no answer depends on: each message becomes a piece that holds its canonical block.
#![tactic(auto)]

mod blocks;
mod capacities;
mod dates;
mod laws;
mod queries;
mod slimming;

pub use blocks::{canonical_block, kept_block};
pub use laws::{
    block_reads, queries_change_nothing, query_asks_nothing, slim_again, slim_fits,
    slim_keeps_answers,
};
pub use queries::{Queries, without_query};
pub use slimming::slim;
