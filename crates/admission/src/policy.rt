//! A policy: how a tier adapts its rate, within checked ranges.

ghost use Rattle.std.specs.Prelude.{◌≡◌, Some, None, IfOk, IfErr, MatchResult};
ghost use Rattle.admission.specs.declared.policy.PolicyNumbers.{PolicyNumbers};
ghost use Rattle.admission.specs.Rules.{IsInRange, is_within, policy_fault};

use crate::{MAX_DEPTH, MAX_DOWN, MAX_EVERY, MAX_RATE, MAX_TARGET, MAX_UP, MAX_WINDOW, MIN_DOWN};
use std::marker::Model;
use thiserror::Error;

/// Which numbers of a policy are outside their ranges.
#[derive(Clone, Copy, Debug, PartialEq, Eq, Hash, Error)]
pub enum PolicyFault {
    #[error("the window is not within 1 to 4096 samples")]
    Window,
    #[error("a control is not made at each 1 to 4096 requests")]
    Every,
    #[error("the smoothing is above 999 thousandths")]
    Smoothing,
    #[error("the rates or their steps are outside their ranges")]
    Rates,
    #[error("the target or its low mark is outside its range")]
    Target,
    #[error("the depth is not within 1 to 1000000 tokens")]
    Depth,
}

/// The numbers of a policy, which may be outside their ranges. Rates are in thousandths of a token a second.
#[derive(Clone, Copy, Debug, PartialEq, Eq)]
pub struct PolicyNumbers {
    /// Of how many of the last response times the 90th percentile is taken, 1 to 4,096.
    pub window: u64,
    /// How many admitted requests stand between two controls, 1 to 4,096.
    pub every: u64,
    /// The weight of the former percentile in thousandths, 0 to 999.
    pub smoothing: u64,
    /// The rate at first, `rate_min` to `rate_max`.
    pub rate: u64,
    /// The least rate, at least 1.
    pub rate_min: u64,
    /// The greatest rate, at most 1,000,000,000.
    pub rate_max: u64,
    /// What is added to a rate, 0 to 1,000,000,000.
    pub up: u64,
    /// What a rate is divided by, in hundredths, 101 to 10,000.
    pub down: u64,
    /// The percentile above which a rate falls, in ticks, 1 to 1,000,000,000,000.
    pub target: u64,
    /// The part of the target below which a rate rises, in hundredths, 0 to 100.
    pub low: u64,
    /// How many tokens the bucket holds, 1 to 1,000,000.
    pub depth: u64,
}

/// How a controller adapts its rate. Contracts see it as its numbers, each of which is in its range.
#[derive(Clone, Copy, Debug, PartialEq, Eq)]
pub struct Policy {
    pub(crate) numbers: PolicyNumbers,
}

impl Model for Policy {
    ghost use Rattle.admission.specs.declared.policy.PolicyNumbers.{PolicyNumbers};
    ghost use Rattle.admission.specs.Rules.{IsInRange};

    ghost Value = { PolicyNumbers };

    ghost view = { λ p. p.numbers };

    ghost invariant = { λ p. IsInRange p.numbers };

    ghost inverse = { λ numbers. record { numbers = numbers } };
}

fn is_within(least: u64, most: u64, x: u64) -> bool
    ensures { result ≡ is_within least most x }
{
    least <= x && x <= most
}

impl Policy {
    /// The policy of numbers that are in their ranges.
    pub fn in_range(numbers: PolicyNumbers) -> Self
        requires { IsInRange numbers }
        ensures { result ≡ numbers }
    {
        Policy { numbers }
    }

    /// A policy of these numbers, or the first that is outside its range.
    ///
    /// # Errors
    ///
    /// The first fault in the order of [`PolicyFault`].
    pub fn of(numbers: PolicyNumbers) -> Result<Self, PolicyFault>
        ensures ok { IfOk result (λ policy. (policy_fault numbers ≡ None) × (policy ≡ numbers)) }
        ensures fault { IfErr result (λ fault. policy_fault numbers ≡ Some fault) }
    {
        let PolicyNumbers {
            rate,
            rate_min,
            rate_max,
            ..
        } = numbers;
        if !is_within(1, MAX_WINDOW, numbers.window) {
            return Err(PolicyFault::Window);
        }
        if !is_within(1, MAX_EVERY, numbers.every) {
            return Err(PolicyFault::Every);
        }
        if numbers.smoothing > 999 {
            return Err(PolicyFault::Smoothing);
        }
        let rates = is_within(1, rate, rate_min) && is_within(rate, MAX_RATE, rate_max);
        if !(rates && numbers.up <= MAX_UP && is_within(MIN_DOWN, MAX_DOWN, numbers.down)) {
            return Err(PolicyFault::Rates);
        }
        if !(is_within(1, MAX_TARGET, numbers.target) && numbers.low <= 100) {
            return Err(PolicyFault::Target);
        }
        if !is_within(1, MAX_DEPTH, numbers.depth) {
            return Err(PolicyFault::Depth);
        }
        Ok(Policy { numbers })
    }

    /// A policy of these numbers, or the first that is outside its range: the same as [`Policy::of`] of
    /// [`PolicyNumbers`], which says their units and ranges.
    ///
    /// # Errors
    ///
    /// The first fault in the order of [`PolicyFault`].
    #[allow(clippy::too_many_arguments)]
    pub fn new(
        window: u64,
        every: u64,
        smoothing: u64,
        rate: u64,
        rate_min: u64,
        rate_max: u64,
        up: u64,
        down: u64,
        target: u64,
        low: u64,
        depth: u64,
    ) -> Result<Self, PolicyFault>
        ensures { let numbers : PolicyNumbers = record {
          window = window;
          every = every;
          smoothing = smoothing;
          rate = rate;
          rate_min = rate_min;
          rate_max = rate_max;
          up = up;
          down = down;
          target = target;
          low = low;
          depth = depth;
        } in
            MatchResult result (λ policy. (policy_fault numbers ≡ None) × (policy ≡ numbers))
            (λ fault. policy_fault numbers ≡ Some fault) }
    {
        Policy::of(PolicyNumbers {
            window,
            every,
            smoothing,
            rate,
            rate_min,
            rate_max,
            up,
            down,
            target,
            low,
            depth,
        })
    }
}
