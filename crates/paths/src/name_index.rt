//! Where the file of a name may be found, by a hash of the name.

ghost use Rattle.std.specs.Prelude.{◌≡◌, ◌<◌, ◌≤◌, ◌^◌, length, IfSome};
ghost use Rattle.paths.specs.Reference.{file_of};

use crate::File;
use std::alloc::{AllocError, Global};

/// How many slots are tried for a name, from that of its hash on.
const TRIED: usize = 8;

/// How many files have no slots: one or two comparisons find one of so few, in less time than a hash of its name takes.
const FEW: usize = 2;

/// The fewest slots for each file.
const SLOTS_PER_FILE: usize = 2;

/// The golden ratio in 64 bits: an odd number without a pattern in its bits (Knuth, The Art of Computer Programming,
/// 6.4).
const GOLDEN: u64 = 0x9e37_79b9_7f4a_7c15;

/// A hash with eight more bytes in it.
#[inline(always)]
fn mixed(hash: u64, word: u64) -> u64 {
    (hash.rotate_left(29) ^ word).wrapping_mul(GOLDEN)
}

/// The last bytes of a name, fewer than eight, as one number.
fn tail(bytes: &[u8]) -> u64 {
    let mut word = 0;
    for byte in bytes {
        word = (word << 8) | u64::from(*byte);
    }
    word
}

/// The hash of a name: each byte reaches its high bits.
fn hash_of(name: &[u8]) -> u64 {
    let (words, rest) = name.as_chunks::<8>();
    let mut hash = 0;
    for word in words {
        hash = mixed(hash, u64::from_le_bytes(*word));
    }
    mixed(mixed(hash, tail(rest)), name.len() as u64)
}

/// The numbers of files, by a hash of their names. A file that it finds has the name; one that it doesn't find may be
/// there all the same.
#[derive(Drop)]
pub(crate) struct NameIndex {
    /// In each slot one more than the number of a file, or 0. Their number is 0 or a power of two.
    slots: Vec<u32>,
    /// How many bytes the longest name has of those that were put into slots, or 0.
    longest: usize,
}

impl NameIndex {
    /// An index in which nothing is found.
    pub(crate) fn empty(alloc: Global) -> NameIndex {
        NameIndex {
            slots: Vec::new(alloc),
            longest: 0,
        }
    }

    /// The index of these files. Where they are few, or memory for it is refused, nothing is found in it.
    pub(crate) fn of(alloc: Global, files: &[File]) -> NameIndex {
        let mut index = NameIndex::empty(alloc);
        if files.len() > FEW && index.make_slots(files.len()).is_ok() {
            for (number, file) in files.iter().enumerate() {
                index.note(file.name.as_slice(), number);
            }
        }
        index
    }

    /// Makes free slots for so many files.
    fn make_slots(&mut self, count: usize) -> Result<(), AllocError> {
        let least = count.saturating_mul(SLOTS_PER_FILE);
        match least.checked_next_power_of_two() {
            Some(slots) => self.slots.resize(slots, 0),
            None => Err(AllocError),
        }
    }

    /// The slot that is tried for a hash after so many others.
    #[inline(always)]
    fn place(&self, hash: u64, tried: usize) -> usize {
        let last = self.slots.len().saturating_sub(1);
        ((hash >> 32) as usize).wrapping_add(tried) & last
    }

    /// Puts the number of a file into the first free slot that is tried for its name.
    fn note(&mut self, name: &[u8], number: usize) {
        let Ok(number) = u32::try_from(number) else {
            return;
        };
        self.longest = self.longest.max(name.len());
        let hash = hash_of(name);
        for tried in 0..TRIED {
            let place = self.place(hash, tried);
            if let Some(slot) = self.slots.get_mut(place)
                && *slot == 0
            {
                *slot = number.wrapping_add(1);
                return;
            }
        }
    }

    /// The number of the file of a name, where it is found. A name that is longer than each of them isn't hashed.
    pub(crate) fn find(&self, files: &[File], name: &[u8]) -> Option<usize>
        ensures { IfSome result
            (λ i. (i < length files.now) × ((file_of files.now i).name ≡ name.now)) }
    {
        if name.len() > self.longest {
            return None;
        }
        let hash = hash_of(name);
        for tried in 0..TRIED {
            let slot = *self.slots.get(self.place(hash, tried))?;
            if slot == 0 {
                return None;
            }
            let number = slot as usize - 1;
            if number < files.len() && files[number].name.as_slice() == name {
                return Some(number);
            }
        }
        None
    }
}
