//! The messages of a batch in parts of some thousands.

ghost use Rattle.std.specs.Prelude.{◌≡◌, ◌++◌, [], flat_map, IfOk};
ghost use Rattle.arrivals.specs.Parts.{incoming_from, joined, Lays, AreParts};

use crate::Series;
use crate::incoming::{Incoming, PieceMessages};
use std::alloc::{AllocError, Global};

/// How many messages are enough for a pair of floors.
const ENOUGH: usize = 4_096;

/// How many messages these pieces have.
fn count(pieces: &[PieceMessages]) -> usize {
    let mut messages: usize = 0;
    for piece in pieces {
        messages = messages.saturating_add(piece.messages.as_slice().len());
    }
    messages
}

/// A part without a message, with room for as many of those that are left as are enough.
fn empty_part(alloc: Global, left: usize) -> Result<Vec<Incoming>, AllocError>
    ensures { IfOk result (λ part. part.items ≡ []) }
{
    Vec::with_capacity(alloc, left.min(ENOUGH))
}

/// A part with the messages of one more piece.
fn with_piece(part: Vec<Incoming>, piece: PieceMessages) -> Result<Vec<Incoming>, AllocError>
    ensures { IfOk result (λ longer. longer.items ≡ part.items ++ incoming_from piece) }
{
    let PieceMessages { origin, messages } = piece;
    let mut part = part;
    for message in messages.into_vec() {
        part.push(Incoming {
            origin,
            what: message.what,
        })?;
    }
    Ok(part)
}

/// Puts a part after the others where it is long enough: what is left of it, with room for the messages to come.
fn laid_by(
    alloc: Global,
    parts: &mut Vec<Series<Incoming>>,
    part: Vec<Incoming>,
    left: usize,
) -> Result<Vec<Incoming>, AllocError>
    ensures joined { IfOk result
        (λ rest. joined parts.new.items ++ rest.items ≡ joined parts.old.items ++ part.items) }
    ensures lays { IfOk result
        (λ rest. Lays parts.old.items part.items parts.new.items rest.items) }
{
    if part.len() < ENOUGH {
        return Ok(part);
    }
    parts.push(Series::from_vec(part))?;
    empty_part(alloc, left)
}

/// The messages of a batch, in parts of a few thousand: each takes a pair of floors, and memory for no more.
pub fn parts_of(
    alloc: Global,
    pieces: Vec<PieceMessages>,
) -> Result<Vec<Series<Incoming>>, AllocError>
    ensures joined { IfOk result
        (λ parts. joined parts.items ≡ flat_map incoming_from pieces.items) }
    ensures parts { IfOk result (λ parts. AreParts pieces.items parts.items) }
{
    let mut parts = Vec::new(alloc);
    let mut left = count(&pieces);
    let mut part = empty_part(alloc, left)?;
    for piece in pieces {
        left = left.saturating_sub(piece.messages.as_slice().len());
        let longer = with_piece(part, piece)?;
        part = laid_by(alloc, &mut parts, longer, left)?;
    }
    parts.push(Series::from_vec(part))?;
    Ok(parts)
}
