//! The messages of recorded traffic, in the order of their arrival: the text of each connection is cut into messages,
//! and each message arrives with the piece that holds its last byte. After its end a number names a further connection.
#![tactic(auto)]

mod ahead;
mod batch;
mod connections;
mod incoming;
pub mod laws;
mod parts;
mod series;
mod taking;
mod tiers;

pub use ahead::{CutRecord, cut_all};
pub use batch::{Batch, Ending, read_batch};
pub use connections::{Connections, some_closes};
pub use incoming::{Incoming, Origin, PieceMessages};
pub use parts::parts_of;
pub use series::Series;
pub use taking::gather;
pub use tiers::Tiers;
