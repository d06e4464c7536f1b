//! The traffic: a capture, made while it is read.

use crate::heads::{push_any, push_browser, push_short};
use crate::random::Random;
use crate::site::{START, push_number};
use crate::words::{Kind, Work};
use std::alloc::{AllocError, Global};
use std::io;
use std::io::Read;

/// How many bytes are made at a time, at least.
const ROOM: usize = 65_536;

/// How many connections have a request each, where requests come whole.
const CONNECTIONS: u64 = 1_000;

/// How many connections send something side by side, where requests come in pieces.
const SIDE: usize = 24;

/// The greatest number of a connection.
const LAST_CONNECTION: u64 = 65_535;

/// What a connection sends, and how much of it was sent.
#[derive(Drop)]
struct Sending {
    connection: u64,
    text: Vec<u8>,
    sent: usize,
}

/// A reader of the traffic.
#[derive(Drop)]
pub struct Traffic {
    alloc: Global,
    kind: Kind,
    files: u64,
    random: Random,
    /// What is made and not read yet begins at `place`.
    made: Vec<u8>,
    place: usize,
    sending: Vec<Sending>,
    /// A request's text.
    text: Vec<u8>,
    left: u64,
    tick: u64,
    records: u64,
    connection: u64,
    ended: bool,
}

impl Traffic {
    /// The traffic of this work, from its start.
    pub fn new(alloc: Global, work: &Work) -> Result<Traffic, AllocError> {
        let mut traffic = Traffic {
            alloc,
            kind: work.kind,
            files: work.files,
            random: Random::new(work.seed.wrapping_add(1)),
            made: Vec::with_capacity(alloc, 2 * ROOM)?,
            place: 0,
            sending: Vec::new(alloc),
            text: Vec::new(alloc),
            left: work.requests,
            tick: 0,
            records: 0,
            connection: 0,
            ended: false,
        };
        traffic.begin()?;
        Ok(traffic)
    }

    /// The first line, and the tiers: a quarter of the connections in each.
    fn begin(&mut self) -> Result<(), AllocError> {
        self.made.extend_from_slice(b"haboob-capture 2 ")?;
        push_number(&mut self.made, START)?;
        self.made.push(b'\n')?;
        for connection in 0..CONNECTIONS {
            self.made.extend_from_slice(b"tier ")?;
            push_number(&mut self.made, connection)?;
            self.made.push(b' ')?;
            push_number(&mut self.made, connection % 4)?;
            self.made.push(b'\n')?;
        }
        self.records = CONNECTIONS;
        Ok(())
    }

    /// A record with the first line of a piece; the bytes are to follow.
    fn head_piece(&mut self, connection: u64, length: u64) -> Result<(), AllocError> {
        self.made.extend_from_slice(b"piece ")?;
        push_number(&mut self.made, self.tick)?;
        self.made.push(b' ')?;
        push_number(&mut self.made, connection)?;
        self.made.push(b' ')?;
        push_number(&mut self.made, length)?;
        self.made.push(b'\n')?;
        self.records = self.records.wrapping_add(1);
        Ok(())
    }

    /// A request in a piece of its own.
    fn push_whole(&mut self) -> Result<(), AllocError> {
        self.left = self.left.saturating_sub(1);
        self.tick = self.tick.wrapping_add(self.random.below(560));
        self.text.clear();
        match self.kind {
            Kind::Short => push_short(&mut self.text, &mut self.random, self.files)?,
            _ => push_browser(&mut self.text, &mut self.random, self.files)?,
        }
        let connection = self.random.below(CONNECTIONS);
        let length = self.text.len() as u64;
        self.head_piece(connection, length)?;
        let Traffic { made, text, .. } = self;
        made.extend_from_slice(text)?;
        Ok(made.push(b'\n')?)
    }

    /// More connections, each with a few requests in a row.
    fn open_some(&mut self) -> Result<(), AllocError> {
        for _ in 0..SIDE {
            let mut text = Vec::new(self.alloc);
            for _ in 0..self.random.below(4).wrapping_add(1) {
                push_any(&mut text, &mut self.random, self.files)?;
                self.left = self.left.saturating_sub(1);
            }
            let connection = self.connection;
            self.connection = if connection >= LAST_CONNECTION {
                0
            } else {
                connection + 1
            };
            self.sending.push(Sending {
                connection,
                text,
                sent: 0,
            })?;
        }
        Ok(())
    }

    /// The next piece of a connection that sends something: mostly of some hundred bytes, now and then of a few.
    fn push_piece(&mut self) -> Result<(), AllocError> {
        if self.sending.is_empty() {
            self.open_some()?;
        }
        let place = self.random.below(self.sending.len() as u64) as usize;
        let most = if self.random.below(4) == 0 { 8 } else { 700 };
        let length = self.random.below(most).wrapping_add(1) as usize;
        self.tick = self.tick.wrapping_add(self.random.below(200));
        let Some(sending) = self.sending.get(place) else {
            return Ok(());
        };
        let (connection, sent) = (sending.connection, sending.sent);
        let length = length.min(sending.text.len().saturating_sub(sent));
        self.head_piece(connection, length as u64)?;
        self.push_bytes(place, length)
    }

    /// The bytes of that piece. What has sent all is put away.
    fn push_bytes(&mut self, place: usize, length: usize) -> Result<(), AllocError> {
        let Some(sending) = self.sending.get_mut(place) else {
            return Ok(());
        };
        let sent = sending.sent;
        if let Some(bytes) = sending.text.get(sent..sent.saturating_add(length)) {
            self.made.extend_from_slice(bytes)?;
        }
        sending.sent = sent.saturating_add(length);
        let done = sending.sent >= sending.text.len();
        self.made.push(b'\n')?;
        if done && place < self.sending.len() {
            self.sending.swap_remove(place);
        }
        Ok(())
    }

    /// The next record.
    fn push_record(&mut self) -> Result<(), AllocError> {
        if self.left == 0 && self.sending.is_empty() {
            self.ended = true;
            self.made.extend_from_slice(b"stop ")?;
            push_number(&mut self.made, self.records)?;
            self.made.push(b'\n')?;
            return Ok(());
        }
        match self.kind {
            Kind::Pieces => self.push_piece(),
            _ => self.push_whole(),
        }
    }

    /// Makes more, once all was read.
    fn make(&mut self) -> Result<(), AllocError> {
        self.made.clear();
        self.place = 0;
        for _ in 0..ROOM {
            if self.ended || self.made.len() >= ROOM {
                break;
            }
            self.push_record()?;
        }
        Ok(())
    }
}

impl Read for Traffic {
    fn read(&mut self, room: &mut [u8]) -> io::Result<usize> {
        if self.place >= self.made.len() && !self.ended {
            self.make()?;
        }
        let rest = self.made.get(self.place..).unwrap_or(&[]);
        let count = room.len().min(rest.len());
        room[..count].copy_from_slice(&rest[..count]);
        self.place = self.place.saturating_add(count);
        Ok(count)
    }
}
