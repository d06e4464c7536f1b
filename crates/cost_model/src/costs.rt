//! The service times of a document, and the time of one answer.

ghost use Rattle.std.specs.Prelude.{◌≡◌, ◌≤◌, true, false, IfOk, IfErr};
ghost use Rattle.paths.specs.Snapshots.{max_file_bytes};
ghost use Rattle.cost_model.specs.Reference.{service};
ghost use Rattle.cost_model.specs.Services.{is_in_range, longest_service};

use crate::{MAX_COST, MAX_DELAY, MAX_SERVERS};
use paths::Outcome;
use std::marker::Model;
use thiserror::Error;

/// Why numbers are no costs.
#[derive(Clone, Copy, Debug, PartialEq, Eq, Error)]
pub enum CostFault {
    #[error("a cost is outside its range")]
    Range,
}

/// What the servers' work costs, in ticks of one microsecond, how many servers there are, and how long a response takes
/// beside their work.
#[derive(Clone, Copy, Debug, PartialEq, Eq)]
pub struct Costs {
    file: u64,
    kib: u64,
    error: u64,
    servers: u64,
    delay: u64,
}

impl Model for Costs {
    ghost use Rattle.std.specs.Prelude.{◌≡◌, true};
    ghost use Rattle.cost_model.specs.Reference.{CostTable};
    ghost use Rattle.cost_model.specs.Services.{is_in_range};

    ghost Value = { CostTable };

    ghost view = { λ c. record { file = c.file; kib = c.kib; error = c.error; servers = c.servers; delay = c.delay } };

    ghost invariant = { λ c. is_in_range
        (record { file = c.file; kib = c.kib; error = c.error; servers = c.servers; delay = c.delay })
        ≡ true };

    ghost inverse = { λ c. record {
      file = c.file;
      kib = c.kib;
      error = c.error;
      servers = c.servers;
      delay = c.delay;
    } };
}

impl Costs {
    /// The costs of numbers that are in their ranges: of a file, of each 1,024 bytes of it that are sent, and of every
    /// other answer; of one server, without a delay.
    pub fn in_range(file: u64, kib: u64, error: u64) -> Costs
        requires { is_in_range
            (record { file = file; kib = kib; error = error; servers = 1; delay = 0 }) ≡ true }
        ensures { result
            ≡ record { file = file; kib = kib; error = error; servers = 1; delay = 0 } }
    {
        Costs {
            file,
            kib,
            error,
            servers: 1,
            delay: 0,
        }
    }

    /// The same costs with that many servers (1 to 1,024) and this delay of each response (0 to 1,000,000,000 ticks).
    pub fn served_by(self, servers: u64, delay: u64) -> Costs
        requires servers { (1 ≤ servers) × (servers ≤ MAX_SERVERS) }
        requires delay { delay ≤ MAX_DELAY }
        ensures { result ≡ record {
          file = self.file;
          kib = self.kib;
          error = self.error;
          servers = servers;
          delay = delay;
        } }
    {
        Costs {
            servers,
            delay,
            ..self
        }
    }

    /// How many servers there are, 1 to 1,024.
    pub fn servers(self) -> u64
        ensures servers { result ≡ self.servers }
        ensures range { (1 ≤ result) × (result ≤ MAX_SERVERS) }
    {
        self.servers
    }

    /// How long a response takes beside the servers' work, 0 to 1,000,000,000 ticks.
    pub fn delay(self) -> u64
        ensures delay { result ≡ self.delay }
        ensures range { result ≤ MAX_DELAY }
    {
        self.delay
    }

    /// The costs of a file (1 to 1,000,000 ticks), of each 1,024 bytes of it that are sent (0 to 1,000,000), and of
    /// every other answer (1 to 1,000,000); of one server, without a delay.
    ///
    /// # Errors
    ///
    /// `Range` where a cost is outside its range.
    pub fn new(file: u64, kib: u64, error: u64) -> Result<Costs, CostFault>
        ensures ok { IfOk result
            (λ costs. (is_in_range (record { file = file; kib = kib; error = error; servers = 1; delay = 0 }) ≡ true)
            × (costs ≡ record { file = file; kib = kib; error = error; servers = 1; delay = 0 })) }
        ensures fault { IfErr result
            (λ _. is_in_range (record { file = file; kib = kib; error = error; servers = 1; delay = 0 }) ≡ false) }
    {
        if (1..=MAX_COST).contains(&file) && kib <= MAX_COST && (1..=MAX_COST).contains(&error) {
            Ok(Costs::in_range(file, kib, error))
        } else {
            Err(CostFault::Range)
        }
    }
}

/// How many ticks a server works on a request with this outcome: `head` and `unmodified` say that a file's bytes are
/// not given, `len` is its length.
pub fn service(costs: Costs, outcome: &Outcome, head: bool, unmodified: bool, len: u64) -> u64
    requires { len ≤ max_file_bytes }
    ensures ticks { result ≡ service costs outcome.now head unmodified len }
    ensures range { (1 ≤ result) × (result ≤ longest_service) }
{
    match outcome {
        Outcome::File(_) if head || unmodified => costs.file,
        Outcome::File(_) => costs.file + (len * costs.kib).div_ceil(1024),
        _ => costs.error,
    }
}
