//! The last samples of a tier, kept in order of arrival and by size, and their percentile.

ghost use Rattle.std.specs.Prelude.{◌≡◌, ◌+◌, ◌-◌, ◌<◌, ◌≤◌, ◌++◌, length, slice_get, ◌∷◌, List, ℕ, [], true, false};
ghost use Rattle.std.specs.Prelude.{IfOk, OnOk, OnErr};
ghost use Rattle.std.specs.Ordering.{nat_cmp};
ghost use Rattle.std.specs.List.Sorted.{IsStrictlySortedBy};
ghost use Rattle.std.specs.Map.{keys_of, set_value};
ghost use Rattle.std.specs.BTreeMap.{insert_entry, is_at};
ghost use Rattle.admission.specs.Tally.{expanded, AllCounted, count_in, remove_one};
ghost use Rattle.admission.specs.Reference.{percentile};
ghost use Rattle.admission.specs.Standing.{window_of, with_sample};

use crate::MAX_WINDOW;
use circular_buffer::HeapCircularBuffer;
use std::alloc::{AllocError, Global};
use std::collections::{BTreeMap, btree_map};
use std::marker::Model;

/// The last samples that were added, and their 90th percentile.
#[derive(Drop)]
pub struct SampleWindow {
    /// The samples, the oldest first.
    ring: HeapCircularBuffer<u64>,
    /// How often the ring holds each sample.
    counts: BTreeMap<u64, usize>,
}

impl Model for SampleWindow {
    ghost use Rattle.admission.specs.Standing.{Window};
    ghost use Rattle.admission.specs.Tally.{IsTally};

    ghost Value = { Window };

    ghost view = { λ w. record { size = w.ring.capacity; samples = w.ring.items } };

    ghost invariant = { λ w. IsTally w.counts.entries w.ring.items w.ring.capacity };
}

/// Counts a sample once more.
#[tactic(auto, unfolding(crate::specs::Tally::count_in))]
fn count(counts: &mut BTreeMap<u64, usize>, sample: u64) -> Result<(), AllocError>
    requires { count_in counts.old.entries sample ≤ MAX_WINDOW }
    ensures ok { OnOk result (counts.new.entries
        ≡ insert_entry nat_cmp counts.old.entries sample (count_in counts.old.entries sample + 1)) }
    ensures err { OnErr result (counts.new.entries ≡ counts.old.entries) }
    ensures ordered { IsStrictlySortedBy nat_cmp (keys_of counts.old.entries) }
{
    *counts.entry(sample)?.or_insert(0) += 1;
    Ok(())
}

/// Counts a sample once less that is counted more than once, and tells whether it was.
#[tactic(auto, unfolding(crate::specs::Tally::count_in))]
fn lower(counts: &mut BTreeMap<u64, usize>, sample: u64) -> bool
    ensures several { result ≡ true → 1 < count_in counts.old.entries sample }
    ensures lower { result ≡ true
        → counts.new.entries
        ≡ set_value (is_at (nat_cmp sample)) counts.old.entries (count_in counts.old.entries sample - 1) }
    ensures few { result ≡ false → count_in counts.old.entries sample ≤ 1 }
    ensures same { result ≡ false → counts.new.entries ≡ counts.old.entries }
{
    match counts.get_mut(&sample) {
        Some(count) => {
            let several = *count > 1;
            if several {
                *count -= 1;
            }
            several
        }
        None => false,
    }
}

/// Counts a sample once less. A sample that is counted no more leaves the map.
fn uncount(counts: &mut BTreeMap<u64, usize>, sample: u64)
    requires { AllCounted counts.old.entries }
    ensures removed { expanded counts.new.entries ≡ remove_one sample
        (expanded counts.old.entries) }
    ensures positive { AllCounted counts.new.entries }
{
    if !lower(counts, sample) {
        counts.remove(&sample);
    }
}

/// Walks the counted samples down from the greatest: the one that stands below `above` others.
fn sample_below(mut entries: btree_map::Iter<'_, u64, usize>, mut above: usize) -> Option<u64>
    requires { above < length (expanded entries) }
    ensures { result ≡ slice_get (expanded entries.entry)
        (length (expanded entries.entry) - 1 - above) }
{
    while let Some((sample, count)) = entries.next_back() {
        if above < *count {
            return Some(*sample);
        }
        above -= *count;
    }
    None
}

impl SampleWindow {
    /// A window that holds at most `size` samples, and none yet.
    pub fn new(alloc: Global, size: usize) -> Result<Self, AllocError>
        requires { (1 ≤ size) × (size ≤ MAX_WINDOW) }
        ensures { IfOk result (λ window. window ≡ window_of size []) }
    {
        Ok(SampleWindow {
            ring: HeapCircularBuffer::with_capacity(alloc, size)?,
            counts: BTreeMap::new(alloc),
        })
    }

    /// Adds a sample. A full window gives up its oldest one.
    pub fn add(&mut self, sample: u64) -> Result<(), AllocError>
        ensures ok { OnOk result
            ((added : List ℕ) → self.old ≡ window_of self.old.size added
            → self.new ≡ window_of self.old.size (added ++ sample ∷ [])) }
        ensures held { OnOk result (self.new ≡ with_sample self.old sample) }
        ensures err { OnErr result (self.new ≡ self.old) }
    {
        count(&mut self.counts, sample)?;
        if let Some(oldest) = self.ring.push_back(sample) {
            uncount(&mut self.counts, oldest);
        }
        Ok(())
    }

    /// The 90th percentile of the samples by the nearest rank, `None` of no samples.
    pub fn percentile(&self) -> Option<u64>
        ensures { result ≡ percentile self.now.samples }
    {
        let len = self.ring.len();
        if len == 0 {
            return None;
        }
        let rank = (9 * len + 9) / 10;
        sample_below(self.counts.iter(), len - rank)
    }
}
