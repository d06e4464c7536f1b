//! What the rules ask of the records so far: order of ticks, ends, tiers, connections.

ghost use Rattle.std.specs.Prelude.{◌≡◌, ◌≤◌, ◌<◌, ◌-◌, ◌^◌, [], IfOk};
ghost use Rattle.captures.specs.Captures.{Follows, past_of};
ghost use Rattle.captures.specs.CaptureFaults.{allowed, open_connection, tier_record};
ghost use Rattle.captures.specs.Readers.{seen, after};
ghost use Rattle.captures.specs.declared.version.Version.{Version as AVersion};

use crate::connection_set::ConnectionSet;
use crate::headings::TierLine;
use crate::{CaptureFaultKind, Record, Version};

/// The latest tick, in microseconds.
const MAX_TICK: u64 = 1_000_000_000_000_000;
/// The last tier.
const MAX_TIER: u64 = 3;

/// What the rules ask of the records so far.
#[derive(Drop)]
pub struct SoFar {
    /// How many there are: fewer than the bytes of a text.
    pub count: usize,
    /// The last tick, in microseconds.
    pub tick: u64,
    /// Which numbers have ended for good.
    pub ended: ConnectionSet,
    /// Which numbers name a connection that had a piece or a tier.
    pub used: ConnectionSet,
}

impl SoFar {
    /// Before the first record.
    pub(crate) fn new() -> SoFar
        ensures { (v : AVersion) → seen result ≡ past_of v [] }
    {
        SoFar {
            count: 0,
            tick: 0,
            ended: ConnectionSet::new(),
            used: ConnectionSet::new(),
        }
    }

    /// The connection that the next record may name.
    fn open(&self, version: Version, conn: u64) -> Result<u16, CaptureFaultKind>
        ensures open { result ≡ open_connection version (seen self.now) conn }
        ensures same { IfOk result (λ c. c ≡ conn) }
    {
        if conn > version.row().last_connection {
            return Err(CaptureFaultKind::Connection);
        }
        let conn = conn as u16;
        if self.ended.contains(conn) {
            return Err(CaptureFaultKind::Ended);
        }
        Ok(conn)
    }

    /// The connection of a piece or an end whose tick and connection may come next.
    pub(crate) fn allow(
        &self,
        version: Version,
        tick: u64,
        conn: u64,
    ) -> Result<u16, CaptureFaultKind>
        ensures allowed { result ≡ allowed version (seen self.now) tick conn }
        ensures same { IfOk result (λ c. c ≡ conn) }
    {
        if tick > MAX_TICK || tick < self.tick {
            return Err(CaptureFaultKind::Tick);
        }
        self.open(version, conn)
    }

    /// The tier that may come next.
    pub(crate) fn allow_tier(
        &self,
        version: Version,
        line: TierLine,
    ) -> Result<Record, CaptureFaultKind>
        ensures { result ≡ tier_record version (seen self.now) line }
    {
        let conn = self.open(version, line.conn)?;
        if line.tier > MAX_TIER || self.used.contains(conn) {
            return Err(CaptureFaultKind::Tier);
        }
        Ok(Record::Tier {
            conn,
            tier: line.tier as u8,
        })
    }

    /// Takes one more record into account.
    pub(crate) fn add(&mut self, version: Version, next: &Record)
        ensures { self.old.count < 2 ^ 64 - 1
            → seen self.new ≡ after version (seen self.old) next.now }
    {
        self.count = self.count.saturating_add(1);
        match next {
            Record::Piece { tick, conn, .. } => {
                self.tick = *tick;
                self.used.insert(*conn);
            }
            Record::End { tick, conn } => {
                self.tick = *tick;
                self.used.remove(*conn);
                if !version.used_again() {
                    self.ended.insert(*conn);
                }
            }
            Record::Tier { conn, .. } => self.used.insert(*conn),
        }
    }
}
