//! Steps that are done to chunks of items.

ghost use Rattle.std.specs.Prelude.{◌≡◌, ℕ, IfSome};

/// Steps that are done to chunks of items, one after another.
///
/// A chunk owns all that the steps need of it: its items, and what was made of them so far. Each step is a definition:
/// `step k` is the value of a chunk's content before it, and gives the value after it.
pub trait Steps {
    type Chunk: Drop;

    /// What a chunk's content is seen as. No value of it need be made.
    type Value;

    ghost step: { ℕ → Self.Value → Self.Value };

    ghost content: { Self.Chunk → Self.Value };

    ghost count: { Self.Chunk → ℕ };

    /// Does the step of this number to a chunk. `None` is out of memory, and the chunk is dropped.
    fn work(&self, number: usize, chunk: Self::Chunk) -> Option<Self::Chunk>
        ensures { IfSome result (λ x. content x ≡ step number (content chunk)) };

    /// How many items are in a chunk.
    fn len(&self, chunk: &Self::Chunk) -> usize
        ensures { result ≡ count chunk.now };
}
