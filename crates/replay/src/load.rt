//! How much work floors would have, by the last pieces: whether they pay.

ghost use Rattle.std.specs.Prelude.{◌≡◌, ◌^◌, ◌-◌, map, max, min};
ghost use Rattle.replay.specs.Loads.{judged, no_load, pays_in, target_len, targets_len, with_piece};

use arrivals::Incoming;
use http_requests::{Meaning, Message};

/// How many bytes of targets a part has where a floor pays: to look them up takes longer than to take messages through
/// chunks and queues.
pub(crate) const LOOKING_PAYS: usize = 1_048_576;

/// How many bytes of work a group is where a floor pays. A thread by itself builds a page where the last one was, and
/// holds one at a time; a floor asks the system for memory for the pages of a group.
pub(crate) const ANSWERING_PAYS: usize = 67_108_864;

/// How many messages go through a pair of floors at a time.
const PART: usize = 4_096;

/// After how many pieces that the calling thread answered by itself it is judged whether floors would pay.
const FEW: usize = 256;

/// How many bytes the target of a message has.
fn target_len(what: &Meaning) -> usize
    ensures { result ≡ target_len what.now }
{
    match what {
        Meaning::Request { target, .. } => target.as_slice().len(),
        Meaning::Bad(_) => 0,
    }
}

/// How many bytes the targets of messages have; 2^64 - 1 where they are more.
pub(crate) fn targets_len(messages: &[Incoming]) -> usize
    ensures { result ≡ min (2 ^ 64 - 1) (targets_len (map (λ m. m.what) messages.now)) }
{
    let mut bytes: usize = 0;
    for message in messages {
        bytes = bytes.saturating_add(target_len(&message.what));
    }
    bytes
}

/// The same of the messages of a piece.
fn piece_len(messages: &[Message]) -> usize
    ensures { result ≡ min (2 ^ 64 - 1) (targets_len (map (λ m. m.what) messages.now)) }
{
    let mut bytes: usize = 0;
    for message in messages {
        bytes = bytes.saturating_add(target_len(&message.what));
    }
    bytes
}

/// Whether so much work in so many pieces would be as much as `pays` in a part of a batch of such pieces.
fn pays_in(pays: usize, batch: usize, pieces: usize, work: usize) -> bool
    ensures { result ≡ pays_in pays batch pieces work }
{
    let part = batch.clamp(1, PART);
    let seen = pieces.clamp(1, PART);
    pays as u128 * seen as u128 <= work as u128 * part as u128
}

/// The work of the pieces since it was last judged whether floors pay.
#[derive(Drop)]
pub struct Load {
    /// Whether a floor would have paid for a batch of the pieces before these.
    pub pays: bool,
    /// The most bytes of targets that a part of them had.
    pub targets: usize,
    /// The most work that a group of their replies was, in bytes that are copied.
    pub work: usize,
    /// How many of them the calling thread answered by itself.
    pub pieces: usize,
}

impl Load {
    /// No piece came yet.
    pub(crate) fn new() -> Load
        ensures { result ≡ no_load }
    {
        Load {
            pays: false,
            targets: 0,
            work: 0,
            pieces: 0,
        }
    }

    /// A piece with these messages was answered without a floor, where a batch has so many. Once there are enough it
    /// is judged whether floors would pay.
    pub(crate) fn add_piece(&mut self, batch: usize, messages: &[Message])
        ensures { self.new ≡ with_piece batch (map (λ m. m.what) messages.now) self.old }
    {
        self.targets = self.targets.saturating_add(piece_len(messages));
        self.pieces = self.pieces.saturating_add(1);
        if self.pieces >= FEW {
            self.judge(batch, self.pieces);
        }
    }

    /// Judges, by so many pieces, whether floors would have paid for a batch of them.
    pub(crate) fn judge(&mut self, batch: usize, pieces: usize)
        ensures { self.new ≡ judged batch pieces self.old }
    {
        *self = Load {
            pays: pays_in(LOOKING_PAYS, batch, pieces, self.targets)
                || pays_in(ANSWERING_PAYS, batch, pieces, self.work),
            targets: 0,
            work: 0,
            pieces: 0,
        };
    }
}
