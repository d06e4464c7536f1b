//! Devices that count their failures, and texts of limited size, read part by part.
#![tactic(auto)]

mod bytes;
mod device;
mod long_line;
mod numbers;
mod output;
mod source;
mod text;
mod window;

pub use bytes::Bytes;
pub use device::{Failed, Input};
pub use long_line::read_long_line;
pub use numbers::{number, number_and_rest, three_numbers};
pub use output::Output;
pub use text::{Line, Stop, read_byte_of, read_line, read_run};
