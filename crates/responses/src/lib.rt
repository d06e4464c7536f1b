//! The reply to a request, byte for byte, and its record in a text of replies.
#![tactic(auto)]

mod dates;
mod fields;
mod head;
mod record;
mod rendering;
mod reply;
mod shared_page;
mod slip;

pub use devices::Failed as Write;
pub use record::{write_record, write_reply};
pub use rendering::HeadRenderer;
pub use reply::{Reply, render};
pub use shared_page::SharedPage;
pub use slip::{OK_PLACE, Persistence, ResponseKind, STATUS_CODES, Slip, Status};
