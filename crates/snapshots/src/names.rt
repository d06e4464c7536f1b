//! The last name, and where it was a folder of an earlier one.

ghost use Rattle.std.specs.Prelude.{◌≡◌, ◌++◌, ◌∷◌, [], length, take, nat_eq, IfOk, Bool, if◌then◌else◌};
ghost use Rattle.std.specs.List.{list_any, starts_with, filter};
ghost use Rattle.paths.specs.Reference.{lies_in};
ghost use Rattle.paths.specs.Snapshots.{comes_before};

use std::alloc::{AllocError, Global};

/// What the rules ask of the names so far.
#[derive(Drop)]
pub struct Names {
    /// The last one, empty before the first.
    pub last: Vec<u8>,
    /// How many bytes the names have with which the last one begins, its own among them.
    pub lengths: Vec<usize>,
}

/// Whether the name begins with that of the folder and a slash.
fn lies_in(folder: &[u8], name: &[u8]) -> bool
    ensures { result ≡ lies_in folder.now name.now }
{
    name.starts_with(folder) && name[folder.len()..].starts_with(b"/")
}

/// Adds a number if that is asked for.
fn push_if(numbers: &mut Vec<usize>, number: usize, wanted: bool) -> Result<(), AllocError>
    ensures { IfOk result
        (λ _. numbers.new.items ≡ numbers.old.items ++ (if wanted then number ∷ [] else [])) }
{
    if wanted {
        numbers.push(number)?;
    }
    Ok(())
}

impl Names {
    /// Before the first name.
    pub(crate) fn new(alloc: Global) -> Names
        ensures last { result.last.items ≡ [] }
        ensures lengths { result.lengths.items ≡ [] }
    {
        Names {
            last: Vec::new(alloc),
            lengths: Vec::new(alloc),
        }
    }

    /// n bytes of the last name.
    fn prefix(&self, len: usize) -> &[u8]
        ensures { result.now ≡ take len self.now.last.items }
    {
        &self.last[..len.min(self.last.len())]
    }

    /// Whether the last name comes before this one.
    pub(crate) fn precede(&self, name: &[u8]) -> bool
        ensures { result ≡ comes_before self.now.last.items name.now }
    {
        self.last.as_slice().cmp(name).is_lt()
    }

    /// Whether this name lies in a folder of which a name with which the last one begins is the name.
    pub(crate) fn has_file_above(&self, name: &[u8]) -> bool
        ensures { result
            ≡ list_any (λ len. lies_in (take len self.now.last.items) name.now) self.now.lengths.items }
    {
        for len in &self.lengths {
            if lies_in(self.prefix(*len), name) {
                return true;
            }
        }
        false
    }

    /// The names with one more.
    pub(crate) fn then(&self, alloc: Global, name: &[u8]) -> Result<Names, AllocError>
        ensures last { IfOk result (λ names. names.last.items ≡ name.now) }
        ensures lengths { IfOk result (λ names. names.lengths.items
            ≡ filter (λ len. starts_with nat_eq name.now (take len self.now.last.items)) self.now.lengths.items
            ++ length name.now ∷ []) }
    {
        let last = Vec::from_slice(alloc, name)?;
        let mut lengths = Vec::new(alloc);
        for len in &self.lengths {
            push_if(&mut lengths, *len, name.starts_with(self.prefix(*len)))?;
        }
        lengths.push(name.len())?;
        Ok(Names { last, lengths })
    }
}
