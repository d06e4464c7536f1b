//! Chunks of messages on their way through a floor.

ghost use Rattle.std.specs.Prelude.{◌≡◌, true};
ghost use Rattle.replay.specs.Fronts.{IsLookup, lookup_prop};
ghost use Rattle.replay.specs.Backs.{is_back};

use crate::back::{BackState, Unnamed};
use crate::lookup::{LookedUp, Lookup};
use arrivals::{Incoming, Series};
use paths::Tree;
use std::marker::PhantomData;

/// A message before it is decided on.
#[derive(Drop)]
pub struct Seen<F: Tree> {
    pub message: Incoming,
    pub lookup: Lookup,
    pub of: PhantomData<F>,
    pub ghost is: { IsLookup F.files lookup } by { lookup_prop F.files lookup },
}

/// A message that was decided on, on its way to its reply.
#[derive(Drop)]
pub struct Decided<F: Tree> {
    pub state: BackState<F>,
    pub ghost is: { is_back F.files state ≡ true },
}

/// A chunk of messages: before they are decided on, on the front floor, or behind that, on the back floor.
#[derive(Drop)]
pub struct Chunk<F: Tree> {
    pub front: Vec<Seen<F>>,
    pub back: Vec<Decided<F>>,
}

/// What a chunk is seen as. None is made.
#[derive(Drop)]
pub struct ChunkValue {
    pub front: Series<LookedUp>,
    pub back: Series<BackState<Unnamed>>,
}
