//! The tier of each number's connection.

ghost use Rattle.std.specs.Prelude.{◌≡◌, ◌+◌, ◌<◌, ◌≤◌, [], ℕ, length, max, OnOk, OnErr};
ghost use Rattle.arrivals.specs.Connections.{tier_at, with_tier};

use std::alloc::{AllocError, Global};
use std::marker::Model;

/// The tiers of the connections that numbers name: 0 for each that no record gave another.
#[derive(Drop)]
pub struct Tiers {
    list: Vec<u8>,
}

impl Model for Tiers {
    ghost use Rattle.std.specs.Prelude.{List, ℕ, ◌<◌, All};

    ghost Value = { List ℕ };

    ghost view = { λ t. t.list.items };

    ghost invariant = { λ t. All (λ tier. tier < 4) t.list.items };
}

impl Tiers {
    /// No tier was given yet.
    pub fn new(alloc: Global) -> Tiers
        ensures { result ≡ [] }
    {
        Tiers {
            list: Vec::new(alloc),
        }
    }

    /// The tier of a connection.
    pub fn of(&self, conn: u16) -> u8
        ensures tier { result ≡ tier_at self.now conn }
        ensures range { result < 4 }
    {
        match self.list.get(usize::from(conn)) {
            Some(tier) => *tier,
            None => 0,
        }
    }

    /// Makes a place for a connection.
    fn reach(&mut self, conn: usize) -> Result<(), AllocError>
        ensures place { OnOk result (conn < length self.new) }
        ensures same { (c : ℕ) → tier_at self.new c ≡ tier_at self.old c }
        ensures capacity { length self.new ≤ max (length self.old) (conn + 1) }
    {
        while self.list.len() <= conn {
            self.list.push(0)?;
        }
        Ok(())
    }

    /// Gives a connection its tier. Places are made up to its number's, and no further.
    pub fn give(&mut self, conn: u16, tier: u8) -> Result<(), AllocError>
        requires { tier < 4 }
        ensures ok { OnOk result
            ((c : ℕ) → tier_at self.new c ≡ with_tier conn tier (tier_at self.old) c) }
        ensures err { OnErr result ((c : ℕ) → tier_at self.new c ≡ tier_at self.old c) }
        ensures capacity { length self.new ≤ max (length self.old) (conn + 1) }
    {
        let place = usize::from(conn);
        self.reach(place)?;
        self.list[place] = tier;
        Ok(())
    }

    /// The connection of a number has ended: a further one has no tier yet.
    pub fn end(&mut self, conn: u16)
        ensures { (c : ℕ) → tier_at self.new c ≡ with_tier conn 0 (tier_at self.old) c }
    {
        if let Some(tier) = self.list.get_mut(usize::from(conn)) {
            *tier = 0;
        }
    }
}
