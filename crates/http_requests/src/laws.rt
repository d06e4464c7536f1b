//! What holds of the messages of each text, whoever cuts it.
ghost use Rattle.std.specs.Prelude.{◌≡◌, ◌++◌, ◌≤◌, ℕ, List, length, map, IfOk, IsTrue};
ghost use Rattle.http_requests.specs.Cutting.{max_text_bytes};
ghost use Rattle.http_requests.specs.declared.messages.Message.{Message as AMessage};
ghost use Rattle.http_requests.specs.Reference.{MessagesOf, EndsAt, IsBlock};
ghost use Rattle.http_requests.specs.Scanning.{ends_at, IsShortestBlock};
ghost use Rattle.http_requests.specs.Parts.{LieInOrder};
ghost use Rattle.http_requests.specs.Cutting.{joined};

use crate::cutting::Cutter;
use crate::messages::Message;
use std::alloc::{AllocError, Global};

/// Where a block ends is decided by the last three bytes before that place: LF LF or LF CR LF.
pub fn block_ends()
    ensures { (s : List ℕ) (e : ℕ) → (EndsAt s e → IsTrue (ends_at s e))
        × (IsTrue (ends_at s e) → EndsAt s e) }
{}

/// The block at the start of a text is its shortest prefix that ends so, within the limit.
pub fn block_in_front()
    ensures { (s : List ℕ) (e : ℕ) → (IsBlock s e → IsShortestBlock s e)
        × (IsShortestBlock s e → IsBlock s e) }
{}

/// A text has one list of messages.
pub fn one_reading()
    ensures { (text : List ℕ) (ms ns : List AMessage) → MessagesOf text ms → MessagesOf text ns
        → ms ≡ ns }
{}

/// The messages of a text are the first of those of the text and whatever follows it.
pub fn first_of_longer()
    ensures { (text more : List ℕ) (ms ns : List AMessage)
        → MessagesOf text ms → MessagesOf (text ++ more) ns
        → (rest : List AMessage) × (ns ≡ ms ++ rest) }
{}

/// The blocks and bodies of a text lie in it one after another, with nothing but empty lines
/// between them, and each request was read by the grammar from exactly its block.
pub fn in_order()
    ensures { (text : List ℕ) (ms : List AMessage) → MessagesOf text ms → LieInOrder 0 text ms }
{}

/// The messages of a text that comes in these pieces. They are the same for each way to cut the
/// text into pieces.
pub fn cut_pieces(alloc: Global, pieces: &[&[u8]]) -> Result<Vec<Message>, AllocError>
    requires { length (joined (map (λ piece. piece.now) pieces.now)) ≤ max_text_bytes }
    ensures messages { IfOk result
        (λ out. MessagesOf (joined (map (λ piece. piece.now) pieces.now)) out.items) }
    ensures only { IfOk result (λ out. (ms : List AMessage)
        → MessagesOf (joined (map (λ piece. piece.now) pieces.now)) ms → out.items ≡ ms) }
{
    let mut cutter = Cutter::new(alloc);
    let mut out = Vec::new(alloc);
    for piece in pieces {
        cutter.feed(piece, &mut out)?;
    }
    Ok(out)
}
