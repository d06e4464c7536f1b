//! The segments of a path.

ghost use Rattle.std.specs.Prelude.{◌≡◌, ◌-◌, ◌==◌, ◌++◌, [], ◌∷◌, length, take, OnOk, OnErr};

use devices::Bytes;
use std::alloc::{AllocError, Global};
use std::marker::Model;

/// The decoded segments of a path, seen as their list.
#[derive(Debug, Drop)]
pub struct Segments {
    segments: Vec<Bytes>,
}

impl Model for Segments {
    ghost use Rattle.std.specs.Prelude.{ℕ, List};

    ghost Value = { List (List ℕ) };

    ghost view = { λ s. s.segments.items };
}

impl Segments {
    pub(crate) fn new(alloc: Global) -> Segments
        ensures { result ≡ [] }
    {
        Segments {
            segments: Vec::new(alloc),
        }
    }

    pub fn as_slice(&self) -> &[Bytes]
        ensures { result.now ≡ self.now }
    {
        &self.segments
    }

    pub(crate) fn is_empty(&self) -> bool
        ensures { result ≡ (length self.now == 0) }
    {
        self.segments.is_empty()
    }

    /// Adds a segment after the others.
    pub(crate) fn push(&mut self, segment: Bytes) -> Result<(), AllocError>
        ensures ok { OnOk result (self.new ≡ self.old ++ segment ∷ []) }
        ensures err { OnErr result (self.new ≡ self.old) }
    {
        self.segments.push(segment)?;
        Ok(())
    }

    /// Takes the last segment away.
    pub(crate) fn drop_last(&mut self)
        ensures { self.new ≡ take (length self.old - 1) self.old }
    {
        let _ = self.segments.pop();
    }
}
