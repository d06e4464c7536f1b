//! The requests in the text of a connection, after HTTP/1.1 (RFC 9110 and RFC 9112).
//!
//! A [`Cutter`] takes the text of one connection in pieces, and adds the messages that end in each
//! piece: requests, and what breaks the rules. The messages of a text are defined on the whole text,
//! in `specs/Framing.antt`, and the verdict of a block of it in `specs/Heads.antt`. So a message has
//! its place and its meaning however the text was cut ([`cut_pieces`], [`one_reading`]) and whatever
//! follows ([`first_of_longer`]), and blocks and bodies lie in the text one after another
//! ([`in_order`]). Each text has a list of messages ([`count_messages`]).
#![tactic(auto)]

mod counting;
mod cutting;
mod heads;
mod laws;
mod messages;
mod scanning;

pub use counting::count_messages;
pub use cutting::{Cutter, PieceEnd, cut_alone};
pub use laws::{block_ends, block_in_front, cut_pieces, first_of_longer, in_order, one_reading};
pub use messages::{Bytes, HttpVersion, Meaning, Message, MessageFault};
