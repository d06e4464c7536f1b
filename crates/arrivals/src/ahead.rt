//! Records of a batch, with the messages that their pieces were cut into ahead of their turn.

ghost use Rattle.std.specs.Prelude.{◌≡◌, IfOk, All};
ghost use Rattle.arrivals.specs.Ahead.{IsAllowed};

use captures::Record;
use http_requests::{Message, PieceEnd, cut_alone};
use rayon::prelude::*;
use std::alloc::{AllocError, Global};
use std::marker::Model;
use std::thread::Threads;

/// A record, with the messages that its piece was cut into ahead of its turn, as if its connection stood between two
/// messages. Contracts see the record.
#[derive(Drop)]
pub struct CutRecord {
    pub(crate) record: Record,
    /// None of a piece that wasn't cut, and none of another record.
    pub(crate) messages: Vec<Message>,
    /// How its connection's text stands after the piece; of one that wasn't cut nothing is said.
    pub(crate) end: PieceEnd,
}

impl Model for CutRecord {
    ghost use Rattle.captures.specs.declared.record.Record.{Record as ARecord};

    ghost Value = { ARecord };

    ghost use Rattle.arrivals.specs.Ahead.{GivesAlone};

    ghost view = { λ c. c.record };

    ghost invariant = { λ c. GivesAlone c.record c.messages.items c.end };
}

/// A record whose piece isn't cut.
fn uncut(alloc: Global, one: Record) -> CutRecord
    ensures { result ≡ one }
{
    CutRecord {
        record: one,
        messages: Vec::new(alloc),
        end: PieceEnd::Unfinished,
    }
}

/// A record with the messages that its piece is cut into.
fn cut(alloc: Global, one: Record) -> Result<CutRecord, AllocError>
    requires { IsAllowed one }
    ensures { IfOk result (λ done. done ≡ one) }
{
    let mut messages = Vec::new(alloc);
    let mut end = PieceEnd::Unfinished;
    if let Record::Piece { bytes, .. } = &one {
        end = cut_alone(alloc, bytes.as_slice(), &mut messages)?;
    }
    Ok(CutRecord {
        record: one,
        messages,
        end,
    })
}

/// The records, none of whose pieces is cut.
fn uncut_all(alloc: Global, records: Vec<Record>) -> Result<Vec<CutRecord>, AllocError>
    ensures { IfOk result (λ done. done.items ≡ records.items) }
{
    let mut done = Vec::with_capacity(alloc, records.len())?;
    for one in records {
        done.push(uncut(alloc, one))?;
    }
    Ok(done)
}

/// How many bytes of a piece are cut in the time that it takes to hand it to another thread.
const HANDING: usize = 1_024;

/// How many bytes beyond these are worth a thread, which is started for them alone.
const WORTH: usize = 1_048_576;

/// For how many threads, of so many, the pieces of these records are worth it.
fn threads_for(threads: usize, records: &[Record]) -> usize {
    let mut bytes: usize = 0;
    for one in records {
        bytes = bytes.saturating_add(one.size().saturating_sub(HANDING));
    }
    threads.min(bytes / WORTH)
}

/// How many records a part has at least, of those that so many threads cut. A list is halved while each half has so
/// many: where there are two records for each thread, there are as many parts as threads, or as the next power of two;
/// else fewer, of two records or three.
fn part_len(records: usize, threads: usize) -> usize {
    match threads.checked_next_power_of_two() {
        Some(parts) => records.checked_div(parts).unwrap_or(records).max(2),
        None => records,
    }
}

/// Cuts the piece of each record, as if its connection stood between two messages, in about as many parts as threads
/// are worth it, each of which has a thread; the calling thread cuts one. Where that is one part, no piece is cut ahead
/// of its turn.
pub fn cut_all<R: Threads + Sync>(
    rt: &R,
    alloc: Global,
    threads: usize,
    records: Vec<Record>,
) -> Result<Vec<CutRecord>, AllocError>
    requires { All IsAllowed records.items }
    ensures { IfOk result (λ cuts. cuts.items ≡ records.items) }
{
    let threads = threads_for(threads, &records);
    if threads < 2 {
        return uncut_all(alloc, records);
    }
    let each = part_len(records.len(), threads);
    let cuts = records
        .into_par_iter()
        .with_min_len(each)
        .map(
            |one: Record| -> Result<CutRecord, AllocError>
                requires { IsAllowed one }
                ensures { IfOk result (λ done. done ≡ one) }
            { cut(alloc, one) },
        )
        .collect::<Result<Vec<CutRecord>, AllocError>>(rt, alloc)??;
    Ok(cuts)
}
