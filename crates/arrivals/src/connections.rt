//! The connections that numbers name, read piece by piece.

ghost use Rattle.std.specs.Prelude.{◌≡◌, ◌≢◌, ◌<◌, ◌≤◌, [], ℕ, List, length, ◌+◌, max, OnOk, OnErr, IfOk, IfSome};
ghost use Rattle.std.specs.Prelude.{IfNone, ◌↔◌, IsTrue};
ghost use Rattle.http_requests.specs.declared.messages.Message.{Message as AMessage};
ghost use Rattle.http_requests.specs.Alone.{CutAlone, shifted};
ghost use Rattle.http_requests.specs.Cutting.{CutterAfter, max_text_bytes};
ghost use Rattle.http_requests.specs.declared.cutting.PieceEnd.TheVariants.{Between};
ghost use Rattle.arrivals.specs.Batches.{Reads};
ghost use Rattle.arrivals.specs.Gathering.{Accepts, StandsBetween, read_of};
ghost use Rattle.arrivals.specs.Connections.{HasRead, HasCapacity, ReadMore, ReadSome, LacksAt, connection_at};
ghost use Rattle.arrivals.specs.Connections.{some_closes};
ghost use Rattle.arrivals.specs.declared.connections.Connection.TheVariants.{Closed, Silent};

use http_requests::{Cutter, Message, PieceEnd};
use std::alloc::{AllocError, Global};
use std::marker::Model;

/// Whether one of these messages is the last of its connection: nothing is read after it.
pub fn some_closes(messages: &[Message]) -> bool
    ensures { result ≡ some_closes messages.now }
{
    messages.iter().any(|message| message.what.closes())
}

/// A connection.
#[derive(Drop)]
pub enum Connection {
    /// No byte of it came yet.
    Silent,
    /// Its text is being cut.
    Open(Cutter),
    /// Its last message closed it: what follows is ignored.
    Closed,
}

impl Connection {
    /// The first byte of its text comes, where none came yet.
    fn begin(&mut self, alloc: Global)
        ensures reads { (text : List ℕ) (ms : List AMessage)
            → HasRead self.old text ms → HasRead self.new text ms }
        ensures capacity { (n : ℕ) → HasCapacity self.old n → HasCapacity self.new n }
        ensures begun { self.new ≢ Silent }
    {
        if matches!(self, Connection::Silent) {
            *self = Connection::Open(Cutter::new(alloc));
        }
    }

    /// Reads one more piece, and adds the messages that end in it. Without memory it is closed.
    pub(crate) fn read(
        &mut self,
        alloc: Global,
        piece: &[u8],
        out: &mut Vec<Message>,
    ) -> Result<(), AllocError>
        requires empty { out.old.items ≡ [] }
        requires capacity { HasCapacity self.old (length piece.now) }
        ensures ok { OnOk result
            ((text : List ℕ) (ms : List AMessage) → HasRead self.old text ms
            → ReadMore text ms self.new piece.now out.new.items) }
        ensures lacks { OnErr result
            ((self.new ≡ Closed) × ReadSome self.old piece.now out.new.items) }
    {
        self.begin(alloc);
        match self {
            Connection::Open(cutter) => match cutter.feed(piece, out) {
                Ok(()) => {
                    if some_closes(out) {
                        *self = Connection::Closed;
                    }
                    Ok(())
                }
                Err(refused) => {
                    *self = Connection::Closed;
                    Err(refused)
                }
            },
            _ => Ok(()),
        }
    }

    /// Whether it stands between two messages, and nothing of the next came yet.
    fn is_between(&self) -> bool
        ensures { IsTrue result ↔ StandsBetween self.now }
    {
        match self {
            Connection::Silent => true,
            Connection::Open(cutter) => cutter.is_between(),
            Connection::Closed => false,
        }
    }

    /// Takes a piece of so many bytes that was cut by itself, and after which its text stands between two messages.
    fn pass(&mut self, alloc: Global, len: u64)
        requires between { StandsBetween self.old }
        requires capacity { HasCapacity self.old len }
        ensures { (piece : List ℕ) (ms : List AMessage) → length piece ≡ len → CutAlone piece ms Between
            → Reads self.old piece (shifted (read_of self.old) ms) self.new }
    {
        match self {
            Connection::Silent => {
                let mut cutter = Cutter::new(alloc);
                cutter.pass(len);
                *self = Connection::Open(cutter);
            }
            Connection::Open(cutter) => cutter.pass(len),
            Connection::Closed => {}
        }
    }

    /// Takes a piece that was cut by itself, where it stands between two messages and the piece doesn't end within one:
    /// its messages are those that were cut. Whether it took the piece; else nothing changes.
    pub(crate) fn accept(&mut self, alloc: Global, piece: &[u8], end: PieceEnd) -> bool
        requires { HasCapacity self.old (length piece.now) }
        ensures { Accepts self.old piece.now end result self.new }
    {
        if !self.is_between() {
            return false;
        }
        match end {
            PieceEnd::Between => {
                self.pass(alloc, piece.len() as u64);
                true
            }
            PieceEnd::Closed => {
                *self = Connection::Closed;
                true
            }
            PieceEnd::Unfinished => false,
        }
    }
}

/// The connections that numbers name, each the last one of its number. A cutter is kept for each that is open: for none
/// that is silent yet, and for none that a message has closed, or that has ended.
#[derive(Drop)]
pub struct Connections {
    list: Vec<Connection>,
}

impl Model for Connections {
    ghost use Rattle.std.specs.Prelude.{List};
    ghost use Rattle.arrivals.specs.declared.connections.Connection.{Connection as AConnection};

    ghost Value = { List AConnection };

    ghost view = { λ c. c.list.items };
}

impl Connections {
    /// No connection has sent anything yet.
    pub fn new(alloc: Global) -> Connections
        ensures { result ≡ [] }
    {
        Connections {
            list: Vec::new(alloc),
        }
    }

    /// Makes a place for a connection.
    fn reach(&mut self, conn: usize) -> Result<(), AllocError>
        ensures place { OnOk result (conn < length self.new) }
        ensures same { (c : ℕ) → connection_at self.new c ≡ connection_at self.old c }
        ensures capacity { length self.new ≤ max (length self.old) (conn + 1) }
    {
        while self.list.len() <= conn {
            self.list.push(Connection::Silent)?;
        }
        Ok(())
    }

    /// A piece came on a connection: adds the messages that end in it. Once out of memory the connections are of no
    /// use any more: the others stay as they were, and so does this one where its cutter wasn't asked; else it is
    /// closed. Places are made up to its number's, and no further.
    pub fn read_piece(
        &mut self,
        alloc: Global,
        conn: usize,
        piece: &[u8],
        out: &mut Vec<Message>,
    ) -> Result<(), AllocError>
        requires empty { out.old.items ≡ [] }
        requires capacity { HasCapacity (connection_at self.old conn) (length piece.now) }
        ensures own { OnOk result ((text : List ℕ) (ms : List AMessage)
            → HasRead (connection_at self.old conn) text ms
            → ReadMore text ms (connection_at self.new conn) piece.now out.new.items) }
        ensures others { (c : ℕ) → c ≢ conn → connection_at self.new c ≡ connection_at self.old c }
        ensures lacks { OnErr result
            (LacksAt (connection_at self.old conn) (connection_at self.new conn) piece.now out.new.items) }
        ensures capacity { length self.new ≤ max (length self.old) (conn + 1) }
    {
        self.reach(conn)?;
        self.list[conn].read(alloc, piece, out)
    }

    /// A piece came on a connection that was cut by itself: takes it where the connection stands between two messages
    /// and the piece doesn't end within one. Then the messages that end in it are those that were cut, each place
    /// counted from the start of the connection's text. Whether it was taken; else, and out of memory, no connection
    /// changes. Places are made up to its number's, and no further.
    pub fn accept(
        &mut self,
        alloc: Global,
        conn: usize,
        piece: &[u8],
        end: PieceEnd,
    ) -> Result<bool, AllocError>
        requires { HasCapacity (connection_at self.old conn) (length piece.now) }
        ensures own { IfOk result (λ taken.
            Accepts (connection_at self.old conn) piece.now end taken (connection_at self.new conn)) }
        ensures others { (c : ℕ) → c ≢ conn → connection_at self.new c ≡ connection_at self.old c }
        ensures lacks { OnErr result ((c : ℕ) → connection_at self.new c ≡ connection_at self.old c) }
        ensures capacity { length self.new ≤ max (length self.old) (conn + 1) }
    {
        self.reach(conn)?;
        Ok(self.list[conn].accept(alloc, piece, end))
    }

    /// The connection of a number has ended: a further one comes after it. An unfinished message of it is gone.
    pub fn end(&mut self, conn: usize)
        ensures own { connection_at self.new conn ≡ Silent }
        ensures others { (c : ℕ) → c ≢ conn → connection_at self.new c ≡ connection_at self.old c }
    {
        if let Some(connection) = self.list.get_mut(conn) {
            *connection = Connection::Silent;
        }
    }
}
