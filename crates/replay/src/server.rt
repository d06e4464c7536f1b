//! What an engine serves with.

ghost use Rattle.std.specs.Prelude.{◌≡◌, ◌≤◌};
ghost use Rattle.captures.specs.Reference.{max_tick};
ghost use Rattle.reference.specs.Reference.{tick_in};
ghost use Rattle.replay.specs.Serving.{CountsBy};

use crate::Settings;
use arrivals::Origin;
use paths::{Snapshot, Tree};
use std::alloc::Global;
use std::marker::{Model, PhantomData};

/// What an engine serves with, the same for each message: the files of a snapshot, by these settings. Contracts see it
/// as the `Choice` of its settings.
#[derive(Drop)]
pub(crate) struct Server<'a, F: Tree> {
    pub alloc: Global,
    pub snapshot: &'a Snapshot,
    pub settings: &'a Settings,
    pub tree: PhantomData<F>,
}

impl<'a, F: Tree> Model for Server<'a, F> {
    ghost use Rattle.std.specs.Prelude.{◌≡◌};
    ghost use Rattle.reference.specs.Reference.{Choice};

    ghost Value = { Choice };

    ghost view = { λ s. s.settings.now };

    ghost invariant = { λ s. s.snapshot.now ≡ F.files };
}

impl<'a, F: Tree> Server<'a, F> {
    /// The tick that a message from there counts with, at the speed of the traffic.
    pub fn tick(&self, origin: Origin) -> u64
        requires { origin.tick ≤ max_tick }
        ensures value { result ≡ tick_in self.now.served origin }
        ensures range { result ≤ origin.tick }
        ensures rises { CountsBy self.now.served.speed origin.tick result }
    {
        let settings = self.settings;
        settings.tick(origin.tick)
    }
}
