//! A tier: its bucket, its window of samples and its controls.

ghost use Rattle.std.specs.Prelude.{◌≡◌, ◌+◌, ◌-◌, ◌*◌, ◌<◌, ◌≤◌, [], ◌∷◌, ℕ, List, drop, take, filter, max, nat_le};
ghost use Rattle.std.specs.Prelude.{◌%◌, nat_eq, length, vec_len, vec_capacity, slice_get, Some, IfOk, OnOk, OnErr};
ghost use Rattle.admission.specs.Reference.{smoother, adjusted};
ghost use Rattle.admission.specs.Standing.{RiseWithin, AllRates, AllFrom, IsShare, completions, with_sample};
ghost use Rattle.admission.specs.After.{TierFits};
ghost use Rattle.admission.specs.InFlight.{due_of};
ghost use Rattle.admission.specs.TierCalls.{Decides, Takes, StaysBeside, Moves, IsComplete, Shows, Foresees};
ghost use Rattle.admission.specs.Running.{last_rate, next_control, when_rejected, finish_or};

use crate::in_flight::{InFlight, Response};
use crate::{
    Control, Decision, MAX_DELAY, MAX_OFFERS, MAX_RATE, MAX_SERVICE, MAX_TICK, Outlook, Policy,
    SampleWindow,
};
use std::alloc::{AllocError, Global};
use std::marker::Model;
use token_bucket::Bucket;

/// One tier of requests: its own bucket, window and controls.
#[derive(Drop)]
pub(crate) struct Tier {
    policy: Policy,
    /// The bucket at the tick of the tier's last offer, or of its last control where that was later.
    bucket: Bucket,
    /// The tick of the tier's last offer, or of the last completion where that was later.
    clock: u64,
    /// The admitted requests whose responses aren't complete yet.
    pub(crate) in_flight: InFlight,
    /// How many responses are complete.
    completed: u64,
    /// How many requests were turned away.
    pub(crate) rejected: u64,
    /// The response times of the last complete ones.
    window: SampleWindow,
    /// The controls of the complete ones.
    controls: Vec<Control>,
}

impl Model for Tier {
    ghost use Rattle.admission.specs.Standing.{TierStanding, IsSoundTier};

    ghost Value = { TierStanding };

    ghost view = { λ t. record {
      rules = t.policy;
      bucket = t.bucket;
      clock = t.clock;
      flight = t.in_flight;
      completed = t.completed;
      rejected = t.rejected;
      window = t.window;
      controls = t.controls.items;
    } };

    ghost invariant = { λ t. IsSoundTier (record {
      rules = t.policy;
      bucket = t.bucket;
      clock = t.clock;
      flight = t.in_flight;
      completed = t.completed;
      rejected = t.rejected;
      window = t.window;
      controls = t.controls.items;
    }) };
}

/// The smoothed percentile: `smoothing` thousandths of the one before, the rest of the new one, rounded down.
fn smooth(policy: Policy, before: u64, own: u64) -> u64
    ensures { result ≡ smoother policy before own }
{
    let weight = u128::from(policy.numbers.smoothing);
    let sum = weight * u128::from(before) + (1000 - weight) * u128::from(own);
    (sum / 1000) as u64
}

/// The rate after a control: lowered above the target, raised below the low mark.
fn adjust(policy: Policy, smoothed: u64, rate: u64) -> u64
    requires { (1 ≤ rate) × (rate ≤ MAX_RATE) }
    ensures rate { result ≡ adjusted policy smoothed rate }
    ensures range { (1 ≤ result) × (result ≤ MAX_RATE) }
{
    let numbers = policy.numbers;
    if smoothed > numbers.target {
        numbers.rate_min.max(100 * rate / numbers.down)
    } else if 100 * u128::from(smoothed) < u128::from(numbers.low * numbers.target) {
        numbers.rate_max.min(rate + numbers.up)
    } else {
        rate
    }
}

/// The rate of the last control, or the policy's where there is none.
fn last_rate(policy: Policy, controls: &[Control]) -> u64
    requires { AllRates controls.now }
    ensures rate { result ≡ last_rate policy controls.now }
    ensures range { (1 ≤ result) × (result ≤ MAX_RATE) }
{
    match controls.last() {
        Some(last) => last.rate,
        None => policy.numbers.rate,
    }
}

/// The control that follows these.
fn next_control(policy: Policy, controls: &[Control], percentile: u64, instant: u64) -> Control
    requires { AllRates controls.now }
    ensures control { result ≡ next_control policy controls.now instant percentile }
    ensures range { (1 ≤ result.rate) × (result.rate ≤ MAX_RATE) }
{
    let before = match controls.last() {
        Some(last) => last.smoothed,
        None => 0,
    };
    let smoothed = smooth(policy, before, percentile);
    let rate = last_rate(policy, controls);
    Control {
        instant,
        percentile,
        smoothed,
        rate: adjust(policy, smoothed, rate),
    }
}

/// Whether that many complete responses make a control due.
fn is_due(policy: Policy, completed: u64) -> bool
    ensures { result ≡ nat_eq (completed % policy.every) 0 }
{
    completed % policy.numbers.every == 0
}

/// Makes all the growths of a complete response: room for a control, and the sample in the window.
fn grow(
    window: &mut SampleWindow,
    controls: &mut Vec<Control>,
    sample: u64,
) -> Result<(), AllocError>
    ensures window { OnOk result (window.new ≡ with_sample window.old sample) }
    ensures room { OnOk result (vec_len controls.new < vec_capacity controls.new) }
    ensures controls { controls.new.items ≡ controls.old.items }
    ensures err { OnErr result (window.new ≡ window.old) }
{
    controls.reserve(1)?;
    window.add(sample)
}

/// How many of the controls have an instant of at most `tick`.
fn count_until(controls: &[Control], tick: u64) -> usize
    requires { (hi : ℕ) × RiseWithin 0 hi controls.now }
    ensures within { result ≤ length controls.now }
    ensures first { take result controls.now ≡ filter (λ c. nat_le c.instant tick) controls.now }
{
    let mut count = controls.len();
    while count > 0 && controls[count - 1].instant > tick {
        count -= 1;
    }
    count
}

impl Tier {
    /// A tier that was offered nothing yet.
    pub(crate) fn new(alloc: Global, policy: Policy) -> Result<Self, AllocError>
        ensures rules { IfOk result (λ tier. tier.rules ≡ policy) }
        ensures fits { IfOk result (λ tier. TierFits [] tier) }
        ensures share { IfOk result (λ tier. IsShare 0 0 0 tier) }
    {
        Ok(Tier {
            policy,
            bucket: Bucket::new(policy.numbers.depth, policy.numbers.rate),
            clock: 0,
            in_flight: InFlight::new(alloc),
            completed: 0,
            rejected: 0,
            window: SampleWindow::new(alloc, policy.numbers.window as usize)?,
            controls: Vec::new(alloc),
        })
    }

    /// Lets time pass up to `tick`: takes in the responses that are complete then, in the order of their completions.
    pub(crate) fn pass(&mut self, tick: u64) -> Result<(), AllocError>
        requires tick { tick ≤ MAX_TICK }
        requires few { self.old.flight.admitted ≤ MAX_OFFERS }
        ensures moves { Moves self.old tick self.new }
        ensures complete { OnOk result (IsComplete tick self.new) }
    {
        while let Some(response) = self.in_flight.next() {
            if response.completion > tick {
                break;
            }
            self.take_in(response)?;
        }
        Ok(())
    }

    /// Takes in the response that is complete first: its sample goes into the window, and at each `every`-th a control
    /// is made, whose rate holds from that tick on. What came before it is credited at the old rate.
    fn take_in(&mut self, response: Response) -> Result<(), AllocError>
        requires next { slice_get self.old.flight.responses 0 ≡ Some (due_of response) }
        requires least { AllFrom response.completion (completions self.old.flight.responses) }
        requires within { response.completion ≤ MAX_TICK }
        requires few { self.old.flight.admitted ≤ MAX_OFFERS }
        ensures moves { Moves self.old response.completion self.new }
        ensures fewer { OnOk result (self.new.flight ≡ record {
          admitted = self.old.flight.admitted;
          responses = drop 1 self.old.flight.responses;
        }) }
    {
        grow(&mut self.window, &mut self.controls, response.sample)?;
        self.in_flight.take();
        self.clock = response.completion;
        self.completed += 1;
        if !is_due(self.policy, self.completed) {
            return Ok(());
        }
        let percentile = self.window.percentile().unwrap_or(0);
        let control = next_control(self.policy, &self.controls, percentile, response.completion);
        self.bucket.advance(response.completion);
        self.bucket.set_rate(control.rate);
        self.controls.push_reserved(control);
        Ok(())
    }

    /// Offers a request of this tier that comes at `tick`, up to which time has passed, and takes `service` ticks of a
    /// server, which is free from `free` on. Its response takes `delay` ticks beside that.
    pub(crate) fn offer(
        &mut self,
        free: u64,
        tick: u64,
        service: u64,
        delay: u64,
    ) -> Result<Decision, AllocError>
        requires share { (offers : ℕ) × (offers < MAX_OFFERS) × IsShare offers tick tick self.old }
        requires free { free ≤ MAX_TICK + MAX_SERVICE * MAX_OFFERS }
        requires tick { tick ≤ MAX_TICK }
        requires work { (1 ≤ service) × (service ≤ MAX_SERVICE) × (delay ≤ MAX_DELAY) }
        ensures decision { IfOk result (λ decision. Decides self.old free tick service decision) }
        ensures fits { IfOk result (λ decision. Takes self.old tick delay decision self.new) }
        ensures share { OnOk result (StaysBeside self.old tick self.new) }
        ensures finish { IfOk result
            (λ decision. (free ≤ finish_or free decision)
            × (finish_or free decision ≤ max free tick + service)) }
        ensures rules { OnOk result (self.new.rules ≡ self.old.rules) }
        ensures err { OnErr result (self.new ≡ self.old) }
    {
        let mut bucket = self.bucket;
        bucket.advance(tick);
        if !bucket.try_take() {
            self.reject(bucket, tick);
            return Ok(Decision::Rejected);
        }
        // at most MAX_TICK + MAX_SERVICE * (MAX_OFFERS + 1), and with MAX_DELAY still less than 2^64
        let finish = free.max(tick) + service;
        let completion = finish + delay;
        self.in_flight.add(completion, completion - tick)?;
        self.bucket = bucket;
        self.clock = tick;
        Ok(Decision::Admitted { finish })
    }

    /// The controls whose instant is at most this tick, up to which time has passed.
    pub(crate) fn controls_until(&self, tick: u64) -> &[Control]
        requires { IsComplete tick self.now }
        ensures { Shows self.now tick result.now }
    {
        &self.controls[..count_until(&self.controls, tick)]
    }

    /// The same, without a copy and without the rest of the tier.
    pub(crate) fn into_controls_until(self, tick: u64) -> Vec<Control>
        requires { IsComplete tick self }
        ensures { Shows self tick result.items }
    {
        let count = count_until(&self.controls, tick);
        let mut controls = self.controls;
        controls.truncate(count);
        controls
    }

    /// What a request of this tier finds that comes at `tick`, up to which time has passed, where a server is free from
    /// `free` on.
    pub(crate) fn outlook(&self, free: u64, tick: u64) -> Outlook
        requires complete { IsComplete tick self.now }
        requires forward { (self.now.clock ≤ tick) × (tick ≤ MAX_TICK) }
        ensures finds { Foresees self.now free tick result }
        ensures free { result.free ≡ free }
    {
        let mut bucket = self.bucket;
        bucket.advance(tick);
        Outlook {
            credit: bucket.credit(),
            rate: bucket.rate(),
            free,
        }
    }

    /// Keeps the bucket that turned an offer away at this tick.
    fn reject(&mut self, bucket: Bucket, tick: u64)
        requires later { AllFrom tick (completions self.old.flight.responses) }
        requires clock { bucket.tick ≡ tick }
        requires forward { self.old.clock ≤ tick }
        requires room { self.old.rejected < MAX_OFFERS }
        ensures { self.new ≡ when_rejected self.old bucket tick }
    {
        self.bucket = bucket;
        self.clock = tick;
        self.rejected += 1;
    }
}
