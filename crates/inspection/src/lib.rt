//! What recorded traffic holds: figures of its records, its connections and the messages that arrive on them.
#![tactic(auto)]

mod busy;
mod counting;
mod counts;
mod found;
mod inspect_fault;
mod inspecting;
mod inspection;
mod laws;
mod opened;
mod shares;
mod tails;
mod texts;

pub use counts::{FaultCounts, MessageCounts, MethodCounts, RecordCounts, VersionCounts};
pub use inspect_fault::InspectFault;
pub use inspecting::inspect;
pub use inspection::{Inspection, Second, Share};
pub use laws::{
    bytes_of_all_pieces, messages_of_one_kind, one_connection_of_each_number, one_inspection,
    requests_by_kind,
};
pub use texts::inspection_text;
