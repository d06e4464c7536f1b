//! The bytes of each connection that belong to no whole message.

ghost use Rattle.std.specs.Prelude.{◌≡◌, ◌≢◌, ℕ, ◌+◌, ◌<◌, ◌≤◌, ◌^◌, ◌==◌, ◌++◌, [], List, length, max, nat_lt};
ghost use Rattle.std.specs.Prelude.{OnOk};
ghost use Rattle.captures.specs.Reference.{last_of};
ghost use Rattle.http_requests.specs.declared.messages.Message.{Message as AMessage};
ghost use Rattle.http_requests.specs.Reference.{blank_len, carriage_return};
ghost use Rattle.http_requests.specs.Cutting.{EndBetween};
ghost use Rattle.arrivals.specs.Connections.{some_closes};
ghost use Rattle.inspection.specs.Figures.{end_of};
ghost use Rattle.inspection.specs.Running.{tail_of, tail_at, empty_tail, rest_of, rest_after_close, rest_unfinished};
ghost use Rattle.inspection.specs.Running.{most_connections, next_of, begun_of, after_blanks, blanks_from};

use arrivals::some_closes;
use http_requests::Message;
use std::alloc::{AllocError, Global};
use std::marker::Model;
use std::mem;

/// What is kept of a connection.
#[derive(Clone, Copy)]
pub struct Tail {
    /// How many bytes came on it.
    pub bytes: u64,
    /// The place after the last byte of its last message.
    pub end: u64,
    /// The place at which its next message begins: after the last one, and the empty lines there.
    pub next: u64,
    /// Whether a message has closed it.
    pub closed: bool,
    /// Whether its last byte is CR, which begins an empty line where LF follows.
    pub cr: bool,
}

/// Nothing came yet.
const NO_TAIL: Tail = Tail {
    bytes: 0,
    end: 0,
    next: 0,
    closed: false,
    cr: false,
};

/// Where the last message ends, once these came after others.
fn end_of(before: u64, messages: &[Message]) -> u64
    ensures { (ms : List AMessage) → before ≡ end_of ms → result ≡ end_of (ms ++ messages.now) }
{
    match messages.last() {
        Some(message) => message.end,
        None => before,
    }
}

/// How many bytes the empty lines take with which a text begins (RFC 9112, 2.2).
#[tactic(auto, using(http_requests::proofs::FrontLemmas::blank_le, http_requests::proofs::FrontLemmas::blank_at))]
fn blanks(s: &[u8]) -> usize
    ensures is { result ≡ blank_len s.now }
    ensures within { result ≤ length s.now }
{
    let mut i: usize = 0;
    while i < s.len()
        && (s[i] == b'\n' || (s[i] == b'\r' && s.len() - i > 1 && s[i + 1] == b'\n'))
    {
        i += 1;
    }
    i
}

/// The place after the empty lines that begin at a place of a text, of which n bytes came before this piece.
#[tactic(auto, using(std::proofs::lemmas::List::drop_min))]
fn after_blanks(bytes: u64, from: u64, piece: &[u8]) -> u64
    requires { bytes + length piece.now < 2 ^ 64 }
    ensures { result ≡ after_blanks bytes from piece.now }
{
    if from < bytes {
        return from;
    }
    let skipped = (from - bytes).min(piece.len() as u64) as usize;
    from + blanks(&piece[skipped..]) as u64
}

impl Tail {
    /// How many bytes came after the last message and the empty lines there.
    fn begun(self) -> u64
        ensures { result ≡ begun_of self }
    {
        self.bytes.saturating_sub(self.next)
    }

    /// Where empty lines can go on with a piece: where the next message begins, or at the piece where its LF makes a
    /// line of the CR before it.
    fn blanks_from(self, piece: &[u8]) -> u64
        ensures { result ≡ blanks_from self piece.now }
    {
        match piece.first() {
            Some(b'\n') if self.begun() == 1 && self.cr => self.bytes,
            _ => self.next,
        }
    }

    /// Where the next message begins, once a piece came and these messages ended in it. Only bytes after the last
    /// message are looked at, as long as they are empty lines.
    fn next_after(self, piece: &[u8], messages: &[Message]) -> u64
        requires { self.bytes + length piece.now < 2 ^ 64 }
        ensures { (text : List ℕ) (ms : List AMessage) → self ≡ tail_of text ms
            → EndBetween (length text) (length text + length piece.now) messages.now
            → result ≡ next_of (text ++ piece.now) (ms ++ messages.now) }
    {
        if messages.is_empty() {
            after_blanks(self.bytes, self.blanks_from(piece), piece)
        } else {
            after_blanks(self.bytes, end_of(self.end, messages), piece)
        }
    }

    /// Whether the last byte is CR, once a piece came.
    fn cr_after(self, piece: &[u8]) -> bool
        ensures { (text : List ℕ) (ms : List AMessage) → self ≡ tail_of text ms
            → result ≡ (last_of (text ++ piece.now) == carriage_return) }
    {
        match piece.last() {
            Some(byte) => *byte == b'\r',
            None => self.cr,
        }
    }

    /// Whether a message has closed it, once these came.
    fn closed_after(self, messages: &[Message]) -> bool
        ensures { (text : List ℕ) (ms : List AMessage) → self ≡ tail_of text ms
            → result ≡ some_closes (ms ++ messages.now) }
    {
        self.closed || some_closes(messages)
    }

    /// A piece came, and these messages ended in it.
    fn after(self, piece: &[u8], messages: &[Message]) -> Tail
        requires { self.bytes + length piece.now < 2 ^ 64 }
        ensures { (text : List ℕ) (ms : List AMessage) → self ≡ tail_of text ms
            → EndBetween (length text) (length text + length piece.now) messages.now
            → result ≡ tail_of (text ++ piece.now) (ms ++ messages.now) }
    {
        Tail {
            bytes: self.bytes + piece.len() as u64,
            end: end_of(self.end, messages),
            next: self.next_after(piece, messages),
            closed: self.closed_after(messages),
            cr: self.cr_after(piece),
        }
    }

    /// How many bytes came after the last message.
    fn rest(self) -> u64
        ensures { result ≡ rest_of self }
    {
        self.bytes.saturating_sub(self.end)
    }

    /// How many bytes came after the message that closed the connection.
    pub(crate) fn rest_after_close(self) -> u64
        ensures { result ≡ rest_after_close self }
    {
        if self.closed { self.rest() } else { 0 }
    }

    /// How many bytes came of a message that is unfinished, where none has closed the connection.
    pub(crate) fn rest_unfinished(self) -> u64
        ensures { result ≡ rest_unfinished self }
    {
        if self.closed { 0 } else { self.begun() }
    }
}

/// What is kept of the connections that numbers name, each the last one of its number.
#[derive(Drop)]
pub struct Tails {
    list: Vec<Tail>,
}

impl Model for Tails {
    ghost use Rattle.std.specs.Prelude.{List};
    ghost use Rattle.inspection.specs.declared.tails.Tail.{Tail as ATail};

    ghost Value = { List ATail };

    ghost view = { λ t. t.list.items };
}

impl Tails {
    /// Nothing came yet.
    pub(crate) fn new(alloc: Global) -> Tails
        ensures { result ≡ [] }
    {
        Tails {
            list: Vec::new(alloc),
        }
    }

    /// The connections as a slice.
    pub(crate) fn as_slice(&self) -> &[Tail]
        ensures { result.now ≡ self.now }
    {
        &self.list
    }

    /// Makes a place for a connection, and none beyond it.
    fn reach(&mut self, conn: usize) -> Result<(), AllocError>
        ensures place { OnOk result (conn < length self.new) }
        ensures same { (c : ℕ) → tail_at self.new c ≡ tail_at self.old c }
        ensures capacity { length self.new ≤ max (length self.old) (conn + 1) }
    {
        while self.list.len() <= conn {
            self.list.push(NO_TAIL)?;
        }
        Ok(())
    }

    /// A piece came on a connection, and these messages ended in it. Places are made up to its number's alone.
    pub(crate) fn take(
        &mut self,
        conn: u16,
        piece: &[u8],
        messages: &[Message],
    ) -> Result<(), AllocError>
        requires few { length self.old ≤ most_connections }
        requires capacity { (tail_at self.old conn).bytes + length piece.now < 2 ^ 64 }
        ensures few { OnOk result (length self.new ≤ most_connections) }
        ensures own { OnOk result ((text : List ℕ) (ms : List AMessage)
            → tail_at self.old conn ≡ tail_of text ms
            → EndBetween (length text) (length text + length piece.now) messages.now
            → tail_at self.new conn ≡ tail_of (text ++ piece.now) (ms ++ messages.now)) }
        ensures others { OnOk result
            ((c : ℕ) → c ≢ conn → tail_at self.new c ≡ tail_at self.old c) }
        ensures capacity { length self.new ≤ max (length self.old) (conn + 1) }
    {
        let place = usize::from(conn);
        self.reach(place)?;
        self.list[place] = self.list[place].after(piece, messages);
        Ok(())
    }

    /// Whether bytes came on the connection that a number names.
    pub(crate) fn is_open(&self, conn: u16) -> bool
        ensures { result ≡ nat_lt 0 (tail_at self.now conn).bytes }
    {
        match self.list.get(usize::from(conn)) {
            Some(tail) => tail.bytes > 0,
            None => false,
        }
    }

    /// The connection of a number has ended: answers what was kept of it. Nothing came yet on the one after it.
    pub(crate) fn end(&mut self, conn: u16) -> Tail
        ensures kept { result ≡ tail_at self.old conn }
        ensures few { length self.new ≤ length self.old }
        ensures own { tail_at self.new conn ≡ empty_tail }
        ensures others { (c : ℕ) → c ≢ conn → tail_at self.new c ≡ tail_at self.old c }
    {
        match self.list.get_mut(usize::from(conn)) {
            Some(tail) => mem::replace(tail, NO_TAIL),
            None => NO_TAIL,
        }
    }
}
