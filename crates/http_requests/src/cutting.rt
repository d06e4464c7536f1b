//! Cutting a text that comes in pieces.
ghost use Rattle.std.specs.Prelude.{◌≡◌, ◌<◌, ◌≤◌, ◌++◌, ◌∷◌, [], drop, length, IfNone, IfOk, IfSome, OnErr, OnOk};
ghost use Rattle.std.specs.Prelude.{OnSome, List};
ghost use Rattle.http_requests.specs.Reference.{max_body_bytes};
ghost use Rattle.http_requests.specs.Cutting.{Begins, IsUnfinished, Waits, max_text_bytes};
ghost use Rattle.http_requests.specs.declared.messages.Message.{Message as AMessage};
ghost use Rattle.http_requests.specs.Alone.{CutAlone};

use crate::heads::{Verdict, bad, read_block};
use crate::messages::{Meaning, Message, MessageFault};
use crate::scanning::{Found, MAX_BLOCK_BYTES, find};
use std::alloc::{AllocError, Global};
use std::marker::Model;
use std::mem;

/// How a connection's text stands after a piece that was cut by itself.
#[derive(Clone, Copy, Debug, PartialEq, Eq)]
pub enum PieceEnd {
    /// Between two messages: nothing of the next came yet.
    Between,
    /// After a message that ends the connection.
    Closed,
    /// In a block or a body, of which the rest is still to come.
    Unfinished,
}

/// Where a cutter stands in the text.
#[derive(Drop)]
pub enum CutterState {
    /// Between two messages, or in a block.
    Seeking,
    /// In a body: its message, and how many bytes of it are still to come.
    Body(Meaning, u64),
    /// After a message that ends the connection.
    Closed,
    /// After out of memory.
    Failed,
}

/// Drops the first bytes.
fn drop_first(bytes: &mut Vec<u8>, n: usize)
    requires { n ≤ length bytes.old.items }
    ensures { bytes.new.items ≡ drop n bytes.old.items }
{
    if n > 0 {
        bytes.drain(..n);
    }
}

/// Takes bytes of a text where nothing is held. A block that is whole is read where it lies.
fn take_here(
    alloc: Global,
    held: &mut Vec<u8>,
    text: &[u8],
) -> Result<(usize, Option<Verdict>), AllocError>
    requires empty { held.old.items ≡ [] }
    requires some { 0 < length text.now }
    ensures begins { IfOk result (λ took. IfSome took.1 (Begins held.old.items text.now took.0)) }
    ensures small { IfOk result
        (λ took. IfSome took.1 (λ verdict. verdict.length ≤ max_body_bytes)) }
    ensures waits { IfOk result
        (λ took. IfNone took.1 (Waits held.old.items text.now took.0 held.new.items)) }
    ensures empty { IfOk result (λ took. OnSome took.1 (held.new.items ≡ [])) }
{
    match find(text, 0) {
        Found::Wait(start) => {
            held.extend_from_slice(&text[start..])?;
            Ok((text.len(), None))
        }
        Found::Over(len) => Ok((len, Some(bad(MessageFault::TooLong)))),
        Found::Whole(start, len) => {
            let verdict = read_block(alloc, &text[start..start + len])?;
            Ok((start + len, Some(verdict)))
        }
    }
}

/// Takes bytes of a text where a block is held that is not whole yet. What is held isn't scanned again.
fn take_joined(
    alloc: Global,
    held: &mut Vec<u8>,
    text: &[u8],
) -> Result<(usize, Option<Verdict>), AllocError>
    requires unfinished { IsUnfinished held.old.items }
    requires some { 0 < length text.now }
    ensures begins { IfOk result (λ took. IfSome took.1 (Begins held.old.items text.now took.0)) }
    ensures small { IfOk result
        (λ took. IfSome took.1 (λ verdict. verdict.length ≤ max_body_bytes)) }
    ensures waits { IfOk result
        (λ took. IfNone took.1 (Waits held.old.items text.now took.0 held.new.items)) }
    ensures empty { IfOk result (λ took. OnSome took.1 (held.new.items ≡ [])) }
{
    let had = held.len();
    let most = text.len().min(MAX_BLOCK_BYTES - had);
    held.extend_from_slice(&text[..most])?;
    match find(held, had) {
        Found::Wait(start) => {
            drop_first(held, start);
            Ok((most, None))
        }
        Found::Over(len) => {
            held.clear();
            Ok((len - had, Some(bad(MessageFault::TooLong))))
        }
        Found::Whole(start, len) => {
            let verdict = read_block(alloc, &held[start..start + len])?;
            held.clear();
            Ok((start + len - had, Some(verdict)))
        }
    }
}

/// Takes some bytes of a text, up to the end of the next block.
fn take_block(
    alloc: Global,
    held: &mut Vec<u8>,
    text: &[u8],
) -> Result<(usize, Option<Verdict>), AllocError>
    requires unfinished { IsUnfinished held.old.items }
    requires some { 0 < length text.now }
    ensures begins { IfOk result (λ took. IfSome took.1 (Begins held.old.items text.now took.0)) }
    ensures small { IfOk result
        (λ took. IfSome took.1 (λ verdict. verdict.length ≤ max_body_bytes)) }
    ensures waits { IfOk result
        (λ took. IfNone took.1 (Waits held.old.items text.now took.0 held.new.items)) }
    ensures empty { IfOk result (λ took. OnSome took.1 (held.new.items ≡ [])) }
{
    if held.is_empty() {
        take_here(alloc, held, text)
    } else {
        take_joined(alloc, held, text)
    }
}

/// Puts a message behind the others. The first gets no more room than it takes where nothing follows it in its
/// piece, as in most pieces.
fn push_message(
    out: &mut Vec<Message>,
    message: Message,
    ends_piece: bool,
) -> Result<(), AllocError>
    ensures ok { OnOk result (out.new.items ≡ out.old.items ++ message ∷ []) }
    ensures err { OnErr result (out.new.items ≡ out.old.items) }
{
    if ends_piece && out.capacity() == 0 {
        out.reserve_exact(1)?;
    }
    out.push(message)?;
    Ok(())
}

/// What a cutter keeps.
#[derive(Drop)]
struct State {
    alloc: Global,
    stage: CutterState,
    read: u64,
    held: Vec<u8>,
}

impl State {
    ghost use Rattle.std.specs.Prelude.{◌≡◌, ◌+◌, ◌<◌, ◌≤◌, ◌↔◌, ℕ, List, [], length};
    ghost use Rattle.std.specs.Prelude.{IfOk, IsErr, IsTrue, OnErr, OnOk};
    ghost use Rattle.http_requests.specs.declared.messages.Message.{Message as AMessage};
    ghost use Rattle.http_requests.specs.Cutting.{IsSound, HasFailed, Enters, Took, CutterAfter, Fed, FedSome};
    ghost use Rattle.http_requests.specs.Cutting.{progress};
    ghost use Rattle.http_requests.specs.Alone.{IsBetween};

    /// A cutter at the start of a text.
    fn new(alloc: Global) -> State
        ensures sound { IsSound (progress result) }
        ensures fits { CutterAfter [] [] (progress result) }
        ensures between { IsBetween (progress result) }
    {
        State {
            alloc,
            stage: CutterState::Seeking,
            read: 0,
            held: Vec::new(alloc),
        }
    }

    /// Whether it stands between two messages, and nothing of the next came yet.
    fn is_between(&self) -> bool
        ensures { IsTrue result ↔ IsBetween (progress self.now) }
    {
        matches!(self.stage, CutterState::Seeking) && self.held.is_empty()
    }

    /// Goes on after a block: with its body, or by adding the message that ends here, which may end the piece.
    fn enter(
        &mut self,
        what: Meaning,
        left: u64,
        out: &mut Vec<Message>,
        ends_piece: bool,
    ) -> Result<(), AllocError>
        requires empty { self.old.held.items ≡ [] }
        requires small { left ≤ max_body_bytes }
        ensures sound { OnOk result (IsSound (progress self.new)) }
        ensures live { OnOk result (¬ (HasFailed (progress self.new))) }
        ensures enters { OnOk result
            (Enters what left self.old.read (progress self.new) out.old.items out.new.items) }
        ensures out { OnErr result (out.new.items ≡ out.old.items) }
        ensures stage { OnErr result (self.new.stage ≡ self.old.stage) }
        ensures read { self.new.read ≡ self.old.read }
    {
        if left > 0 {
            self.stage = CutterState::Body(what, left);
            return Ok(());
        }
        let stage = if what.closes() {
            CutterState::Closed
        } else {
            CutterState::Seeking
        };
        let end = self.read;
        push_message(out, Message { end, what }, ends_piece)?;
        self.stage = stage;
        Ok(())
    }

    /// Takes some bytes of a text, and adds the message that ends with them, if one does.
    fn cut(&mut self, text: &[u8], out: &mut Vec<Message>) -> Result<usize, AllocError>
        requires sound { IsSound (progress self.old) }
        requires some { 0 < length text.now }
        requires capacity { self.old.read + length text.now ≤ max_text_bytes }
        ensures ok { IfOk result
            (Took (progress self.old) text.now (progress self.new) out.old.items out.new.items) }
        ensures out { OnErr result (out.new.items ≡ out.old.items) }
        ensures read { OnErr result (self.new.read ≤ self.old.read + length text.now) }
        ensures failed { OnErr result (HasFailed (progress self.new)) }
    {
        match mem::replace(&mut self.stage, CutterState::Failed) {
            CutterState::Failed => Err(AllocError),
            CutterState::Closed => {
                self.stage = CutterState::Closed;
                self.read += text.len() as u64;
                Ok(text.len())
            }
            CutterState::Body(what, left) => {
                let n = text.len().min(left as usize);
                self.read += n as u64;
                self.enter(what, left - n as u64, out, n == text.len())?;
                Ok(n)
            }
            CutterState::Seeking => {
                let (n, begun) = take_block(self.alloc, &mut self.held, text)?;
                self.read += n as u64;
                match begun {
                    None => self.stage = CutterState::Seeking,
                    Some(Verdict { what, length }) => {
                        self.enter(what, length, out, n == text.len())?;
                    }
                }
                Ok(n)
            }
        }
    }

    /// Takes a piece of the text.
    fn feed(&mut self, piece: &[u8], out: &mut Vec<Message>) -> Result<(), AllocError>
        requires sound { IsSound (progress self.old) }
        requires capacity { self.old.read + length piece.now ≤ max_text_bytes }
        ensures ok { OnOk result ((past : List ℕ) (sofar : List AMessage)
            → CutterAfter past sofar (progress self.old)
            → Fed past sofar (progress self.new) piece.now out.old.items out.new.items) }
        ensures some { OnErr result ((past : List ℕ) (sofar : List AMessage)
            → CutterAfter past sofar (progress self.old)
            → FedSome past sofar piece.now out.old.items out.new.items) }
        ensures failed { HasFailed (progress self.old) → IsErr result }
        ensures out { HasFailed (progress self.old) → out.new.items ≡ out.old.items }
        ensures err { OnErr result (HasFailed (progress self.new)) }
        ensures read { OnOk result (self.new.read ≡ self.old.read + length piece.now) }
        ensures most { OnErr result (self.new.read ≤ self.old.read + length piece.now) }
        ensures sound { IsSound (progress self.new) }
    {
        if let CutterState::Failed = self.stage {
            return Err(AllocError);
        }
        let mut at: usize = 0;
        while at < piece.len() {
            at += self.cut(&piece[at..], out)?;
        }
        Ok(())
    }
}

/// Cuts the text of one connection into its messages, while it comes in pieces. It holds the prefix
/// of at most one block, 8,191 bytes, and never the text.
#[derive(Drop)]
pub struct Cutter {
    state: State,
}

impl Model for Cutter {
    ghost use Rattle.http_requests.specs.Cutting.{Progress, IsSound};

    ghost Value = { Progress };

    ghost use Rattle.http_requests.specs.Cutting.{progress};

    ghost view = { λ c. progress c.state };

    ghost invariant = { λ c. IsSound (progress c.state) };
}

impl Cutter {
    ghost use Rattle.std.specs.Prelude.{◌≡◌, ◌+◌, ◌≤◌, ◌↔◌, ℕ, List, [], length, IsErr, IsTrue, OnErr, OnOk};
    ghost use Rattle.http_requests.specs.declared.messages.Message.{Message as AMessage};
    ghost use Rattle.http_requests.specs.Cutting.{HasFailed, CutterAfter, Fed, FedSome};
    ghost use Rattle.http_requests.specs.Alone.{CutAlone, IsBetween, StandsSo, shifted};
    ghost use Rattle.http_requests.specs.declared.cutting.PieceEnd.TheVariants.{Between};

    /// A cutter at the start of a text. It takes no memory before the first piece.
    pub fn new(alloc: Global) -> Cutter
        ensures fits { CutterAfter [] [] result }
        ensures between { IsBetween result }
    {
        Cutter {
            state: State::new(alloc),
        }
    }

    /// Takes the next piece of the text, and adds the messages that end in it, in order.
    ///
    /// The whole text may have 1,073,741,824 bytes. The only error is out of memory: then `out` has got
    /// the first of those messages, and each later call is answered by the same error and adds
    /// nothing.
    pub fn feed(&mut self, piece: &[u8], out: &mut Vec<Message>) -> Result<(), AllocError>
        requires { self.old.read + length piece.now ≤ max_text_bytes }

        // Whatever the text so far was, its messages and the new ones are those of the longer text.
        ensures ok { OnOk result ((past : List ℕ) (sofar : List AMessage)
            → CutterAfter past sofar self.old
            → Fed past sofar self.new piece.now out.old.items out.new.items) }
        ensures memory { OnErr result ((past : List ℕ) (sofar : List AMessage)
            → CutterAfter past sofar self.old
            → FedSome past sofar piece.now out.old.items out.new.items) }

        // Out of memory is answered for good.
        ensures fails { OnErr result (HasFailed self.new) }
        ensures failed { HasFailed self.old → IsErr result }
        ensures unchanged { HasFailed self.old → out.new.items ≡ out.old.items }

        ensures read { OnOk result (self.new.read ≡ self.old.read + length piece.now) }
        ensures read_some { OnErr result (self.new.read ≤ self.old.read + length piece.now) }
    {
        self.state.feed(piece, out)
    }

    /// Whether it stands between two messages, and nothing of the next came yet.
    pub fn is_between(&self) -> bool
        ensures { IsTrue result ↔ IsBetween self.now }
    {
        self.state.is_between()
    }

    /// How the text stands after what was read.
    fn end(&self) -> PieceEnd
        ensures { StandsSo result self.now }
    {
        if self.state.is_between() {
            return PieceEnd::Between;
        }
        match self.state.stage {
            CutterState::Closed => PieceEnd::Closed,
            _ => PieceEnd::Unfinished,
        }
    }

    /// Takes a piece of so many bytes that was cut by itself, and after which the text stands between two messages
    /// again ([`cut_alone`]). Its messages are those that were cut, each place counted from the start of the text.
    pub fn pass(&mut self, len: u64)
        requires between { IsBetween self.old }
        requires room { self.old.read + len ≤ max_text_bytes }
        ensures fed { (piece : List ℕ) (ms : List AMessage) → length piece ≡ len → CutAlone piece ms Between
            → (past : List ℕ) (sofar : List AMessage) → CutterAfter past sofar self.old
            → Fed past sofar self.new piece [] (shifted self.old.read ms) }
        ensures read { self.new.read ≡ self.old.read + len }
        ensures between { IsBetween self.new }
    {
        self.state.read += len;
    }
}

/// Cuts a piece as if its connection stood between two messages: adds the messages that end in it, each place counted
/// from the piece's start, and says how the text stands after it.
///
/// The piece may have 1,125,899,906,842,624 bytes. The only error is out of memory: then `out` has got some of those
/// messages.
pub fn cut_alone(
    alloc: Global,
    piece: &[u8],
    out: &mut Vec<Message>,
) -> Result<PieceEnd, AllocError>
    requires { length piece.now ≤ max_text_bytes }
    ensures { IfOk result (λ end. (ms : List AMessage)
        × (out.new.items ≡ out.old.items ++ ms) × CutAlone piece.now ms end) }
{
    let mut cutter = Cutter::new(alloc);
    cutter.feed(piece, out)?;
    Ok(cutter.end())
}
