//! Records taken in their order: which messages arrive with them.

ghost use Rattle.std.specs.Prelude.{◌≡◌, ◌≢◌, ◌∷◌, [], ℕ, List, length, IfOk, OnOk};
ghost use Rattle.captures.specs.declared.record.Record.{Record as ARecord};
ghost use Rattle.http_requests.specs.Alone.{CutAlone};
ghost use Rattle.arrivals.specs.Reference.{Arrival};
ghost use Rattle.arrivals.specs.Connections.{HasCapacity, connection_at};
ghost use Rattle.arrivals.specs.Gathering.{MayGather, Gathers, GathersMore, Brings};

use crate::Series;
use crate::ahead::CutRecord;
use crate::connections::Connections;
use crate::incoming::{Origin, PieceMessages};
use crate::tiers::Tiers;
use captures::Record;
use http_requests::{Message, PieceEnd};
use std::alloc::{AllocError, Global};

/// The messages that a piece brings to its connection: those that it was cut into ahead, where its connection stands
/// between two messages and the piece doesn't end within one; else those that the connection's cutter finds.
fn take_piece(
    alloc: Global,
    connections: &mut Connections,
    conn: usize,
    piece: &[u8],
    messages: Vec<Message>,
    end: PieceEnd,
) -> Result<Vec<Message>, AllocError>
    requires ahead { CutAlone piece.now messages.items end }
    requires capacity { HasCapacity (connection_at connections.old conn) (length piece.now) }
    ensures own { IfOk result (λ own. Brings (connection_at connections.old conn) piece.now own.items
        (connection_at connections.new conn)) }
    ensures others { OnOk result ((c : ℕ) → c ≢ conn
        → connection_at connections.new c ≡ connection_at connections.old c) }
{
    if connections.accept(alloc, conn, piece, end)? {
        return Ok(messages);
    }
    let mut found = Vec::new(alloc);
    connections.read_piece(alloc, conn, piece, &mut found)?;
    Ok(found)
}

/// Takes a record: the messages that end in its piece go behind the others.
fn take_record(
    alloc: Global,
    cut: CutRecord,
    connections: &mut Connections,
    tiers: &mut Tiers,
    pieces: &mut Vec<PieceMessages>,
) -> Result<(), AllocError>
    requires { (records : List ARecord) × (arrivals : List Arrival)
        × MayGather records (cut ∷ []) arrivals connections.old tiers.old }
    ensures { OnOk result ((records : List ARecord) (arrivals : List Arrival)
        → MayGather records (cut ∷ []) arrivals connections.old tiers.old
        → GathersMore records (cut ∷ []) arrivals connections.new tiers.new
        pieces.old.items pieces.new.items) }
{
    let CutRecord {
        record,
        messages,
        end,
    } = cut;
    match record {
        Record::End { conn, .. } => {
            connections.end(usize::from(conn));
            tiers.end(conn);
            Ok(())
        }
        Record::Tier { conn, tier } => tiers.give(conn, tier),
        Record::Piece { tick, conn, bytes } => {
            let tier = tiers.of(conn);
            let own = take_piece(
                alloc,
                connections,
                usize::from(conn),
                bytes.as_slice(),
                messages,
                end,
            )?;
            pieces.push(PieceMessages {
                origin: Origin { conn, tick, tier },
                messages: Series::from_vec(own),
            })?;
            Ok(())
        }
    }
}

/// Takes records in their order: the messages that end in each piece, with where it came from. Once out of memory the
/// connections and the tiers are of no use any more.
pub fn gather(
    alloc: Global,
    cuts: Vec<CutRecord>,
    connections: &mut Connections,
    tiers: &mut Tiers,
) -> Result<Vec<PieceMessages>, AllocError>
    requires { (records : List ARecord) × (arrivals : List Arrival)
        × MayGather records cuts.items arrivals connections.old tiers.old }
    ensures { IfOk result (λ pieces. (records : List ARecord) (arrivals : List Arrival)
        → MayGather records cuts.items arrivals connections.old tiers.old
        → Gathers records cuts.items arrivals connections.new tiers.new pieces.items) }
{
    let mut pieces = Vec::with_capacity(alloc, cuts.len())?;
    for cut in cuts {
        take_record(alloc, cut, connections, tiers, &mut pieces)?;
    }
    Ok(pieces)
}
