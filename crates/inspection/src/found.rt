//! What was found in the records so far.

ghost use Rattle.std.specs.Prelude.{◌≡◌, ℕ, ◌+◌, ◌-◌, ◌<◌, ◌≤◌, ◌^◌, [], ◌∷◌, List, length, OnOk};
ghost use Rattle.http_requests.specs.declared.messages.Meaning.{Meaning as AMeaning};
ghost use Rattle.captures.specs.declared.record.Record.{Record as ARecord};
ghost use Rattle.captures.specs.CaptureFaults.{longest_text};
ghost use Rattle.captures.specs.Captures.{sizes_of};
ghost use Rattle.arrivals.specs.Reference.{Arrival};
ghost use Rattle.inspection.specs.Figures.{AreFigures, messages_by_kind};
ghost use Rattle.inspection.specs.Running.{FewRecords, CanAddAll, most_connections, tail_at, IsFound, TookPiece};
ghost use Rattle.inspection.specs.Running.{TookEnd, with_tick, with_tier};

use crate::busy::Busy;
use crate::counts::{FaultCounts, MessageCounts, MethodCounts, RecordCounts, VersionCounts};
use crate::inspection::{Inspection, Second};
use crate::opened::OpenCount;
use crate::shares::{NO_SHARES, Shares};
use crate::tails::Tails;
use captures::Version;
use http_requests::Message;
use std::alloc::{AllocError, Global};

/// How many ticks a second has.
const TICKS_OF_A_SECOND: u64 = 1_000_000;

/// No record yet.
const NO_RECORDS: RecordCounts = RecordCounts {
    all: 0,
    pieces: 0,
    ends: 0,
    tiers: 0,
};

/// No message yet.
const NO_MESSAGES: MessageCounts = MessageCounts {
    all: 0,
    requests: 0,
    methods: MethodCounts {
        get: 0,
        head: 0,
        other: 0,
    },
    versions: VersionCounts {
        http10: 0,
        http11: 0,
    },
    faults: FaultCounts {
        too_long: 0,
        block: 0,
        host: 0,
        coding: 0,
        length: 0,
        body_size: 0,
    },
};

/// The first second, and no message in it.
const FIRST_SECOND: Second = Second {
    number: 0,
    messages: 0,
};

/// What was found in the records so far.
#[derive(Drop)]
pub struct Found {
    pub records: RecordCounts,
    pub first_tick: Option<u64>,
    pub last_tick: Option<u64>,
    pub messages: MessageCounts,
    pub busy: Busy,
    /// The connections that numbers name now.
    pub tails: Tails,
    /// The shares of those that have ended.
    pub ended: Shares,
    /// How many connections are open.
    pub opened: OpenCount,
}

impl Found {
    /// Nothing was read yet.
    pub(crate) fn new(alloc: Global) -> Found
        ensures { IsFound [] [] result }
    {
        Found {
            records: NO_RECORDS,
            first_tick: None,
            last_tick: None,
            messages: NO_MESSAGES,
            busy: Busy {
                now: FIRST_SECOND,
                busiest: FIRST_SECOND,
            },
            tails: Tails::new(alloc),
            ended: NO_SHARES,
            opened: OpenCount { now: 0, most: 0 },
        }
    }

    /// A record gave this tick.
    fn note_tick(&mut self, tick: u64)
        ensures { self.new ≡ with_tick self.old tick }
    {
        self.first_tick = Some(self.first_tick.unwrap_or(tick));
        self.last_tick = Some(tick);
    }

    /// The connection of a number ended at this tick.
    pub(crate) fn take_end(&mut self, tick: u64, conn: u16)
        requires counts { FewRecords (2 ^ 64 - 1) self.old.records }
        requires shares { CanAddAll self.old.ended (tail_at self.old.tails conn ∷ []) }
        requires opened { 0 < (tail_at self.old.tails conn).bytes → 0 < self.old.opened.now }
        ensures { TookEnd tick conn self.old self.new }
    {
        if self.tails.is_open(conn) {
            self.opened.note_ended();
        }
        self.ended = self.ended.with(self.tails.end(conn));
        self.note_tick(tick);
        self.records.note_end();
    }

    /// A tier came.
    pub(crate) fn take_tier(&mut self)
        requires { FewRecords (2 ^ 64 - 1) self.old.records }
        ensures { self.new ≡ record self.old { records = with_tier self.old.records } }
    {
        self.records.note_tier();
    }

    /// A piece came on a connection, and these messages ended in it.
    pub(crate) fn take_piece(
        &mut self,
        tick: u64,
        conn: u16,
        piece: &[u8],
        messages: &[Message],
    ) -> Result<(), AllocError>
        requires counts { FewRecords (2 ^ 64 - 1) self.old.records }
        requires messages { (whats : List AMeaning) × (self.old.messages ≡ messages_by_kind whats)
            × (length whats + length messages.now < 2 ^ 64) }
        requires busy { self.old.busy.now.messages + length messages.now < 2 ^ 64 }
        requires few { length self.old.tails ≤ most_connections }
        requires capacity { (tail_at self.old.tails conn).bytes + length piece.now < 2 ^ 64 }
        requires opened { self.old.opened.now + 1 < 2 ^ 64 }
        ensures { OnOk result (TookPiece tick conn piece.now messages.now self.old self.new) }
    {
        if !piece.is_empty() && !self.tails.is_open(conn) {
            self.opened.note_opened();
        }
        self.tails.take(conn, piece, messages)?;
        self.note_tick(tick);
        self.records.note_piece();
        self.messages.note_all(messages);
        self.busy
            .note(tick / TICKS_OF_A_SECOND, messages.len() as u64);
        Ok(())
    }
}

/// The figures of what was found.
pub(crate) fn inspection_of(version: Version, start: u64, found: &Found) -> Inspection
    requires { (records : List ARecord) × (arrivals : List Arrival)
        × IsFound records arrivals found.now
        × (sizes_of records ≤ longest_text)
        × (length records ≤ longest_text) }
    ensures version { result.version ≡ version }
    ensures start { result.start ≡ start }
    ensures figures { (records : List ARecord) (arrivals : List Arrival)
        → IsFound records arrivals found.now
        → AreFigures records arrivals result }
{
    let shares = found.ended.with_all(found.tails.as_slice());
    Inspection {
        version,
        start,
        records: found.records,
        first_tick: found.first_tick,
        last_tick: found.last_tick,
        received: shares.received,
        most_open: found.opened.most,
        messages: found.messages,
        after_close: shares.after_close,
        unfinished: shares.unfinished,
        busiest: found.busy.busiest,
    }
}
