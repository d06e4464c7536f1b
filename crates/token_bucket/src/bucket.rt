//! A token bucket on virtual time.

ghost use Rattle.std.specs.Prelude.{◌≡◌, ◌+◌, ◌-◌, ◌*◌, ◌≤◌, ◌↔◌, min, IsTrue};
ghost use Rattle.token_bucket.specs.Calls.{Past, Advance, SetRate, TryTake, made, and_then, credit_of, HasToken};
ghost use Rattle.token_bucket.specs.After.{BucketAfter};

use crate::{MAX_DEPTH, MAX_RATE, MAX_TICK, TOKEN};
use std::marker::Model;

/// A bucket that fills with time and that tokens are taken from.
#[derive(Clone, Copy, Debug)]
pub struct Bucket {
    depth: u64,
    rate: u64,
    tick: u64,
    credit: u64,
}

impl Model for Bucket {
    ghost use Rattle.token_bucket.specs.Standing.{Standing};

    ghost Value = { Standing };

    ghost use Rattle.token_bucket.specs.Standing.{IsInRange};

    ghost view = { λ b. record { depth = b.depth; rate = b.rate; tick = b.tick; credit = b.credit } };

    ghost invariant = { λ b. IsInRange (record { depth = b.depth; rate = b.rate; tick = b.tick; credit = b.credit }) };

    ghost inverse = { λ b. record { depth = b.depth; rate = b.rate; tick = b.tick; credit = b.credit } };
}

/// A credit after some ticks at one rate, which stops at `full`.
fn filled(credit: u64, full: u64, rate: u64, ticks: u64) -> u64
    ensures { result ≡ min full (credit + rate * ticks) }
{
    let sum = u128::from(credit) + u128::from(rate) * u128::from(ticks);
    sum.min(u128::from(full)) as u64
}

impl Bucket {
    /// A full bucket at tick 0, which holds at most `depth` tokens and gains `rate` units a tick.
    pub fn new(depth: u64, rate: u64) -> Self
        requires depth { (1 ≤ depth) × (depth ≤ MAX_DEPTH) }
        requires rate { (1 ≤ rate) × (rate ≤ MAX_RATE) }
        ensures fits { BucketAfter (made depth rate) result }
        ensures tick { result.tick ≡ 0 }
    {
        Bucket {
            depth,
            rate,
            tick: 0,
            credit: depth * TOKEN,
        }
    }

    /// Lets time pass up to tick `to`. What comes beyond the depth is lost.
    pub fn advance(&mut self, to: u64)
        requires forward { self.old.tick ≤ to }
        requires within { to ≤ MAX_TICK }
        ensures fits { (past : Past) → BucketAfter past self.old
            → BucketAfter (and_then past (Advance to)) self.new }
        ensures tick { self.new.tick ≡ to }
    {
        let full = self.depth * TOKEN;
        let credit = filled(self.credit, full, self.rate, to - self.tick);
        self.credit = credit;
        self.tick = to;
    }

    /// Changes the rate from the current tick on.
    pub fn set_rate(&mut self, rate: u64)
        requires { (1 ≤ rate) × (rate ≤ MAX_RATE) }
        ensures fits { (past : Past) → BucketAfter past self.old
            → BucketAfter (and_then past (SetRate rate)) self.new }
        ensures tick { self.new.tick ≡ self.old.tick }
    {
        self.rate = rate;
    }

    /// Takes a token where a whole one is there, and says whether it did.
    pub fn try_take(&mut self) -> bool
        ensures taken { (past : Past) → BucketAfter past self.old
            → (IsTrue result ↔ HasToken past) }
        ensures fits { (past : Past) → BucketAfter past self.old
            → BucketAfter (and_then past (TryTake result)) self.new }
        ensures tick { self.new.tick ≡ self.old.tick }
    {
        if self.credit < TOKEN {
            return false;
        }
        self.credit -= TOKEN;
        true
    }

    /// The credit in units.
    pub fn credit(&self) -> u64
        ensures credit { (past : Past) → BucketAfter past self.now → result ≡ credit_of past }
        ensures value { result ≡ self.now.credit }
    {
        let units = self.credit;
        units
    }

    /// The rate in force, in units a tick.
    pub fn rate(&self) -> u64
        ensures { result ≡ self.now.rate }
    {
        let units = self.rate;
        units
    }
}
