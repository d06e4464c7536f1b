//! Outcomes that are put together from their parts.
use admission::{Control, PoolFigures};
use arrivals::Series;
use captures::Version;
use reference::{Counts, Outcome, Summary, Tally};
use std::alloc::{AllocError, Global};

/// What became of a tier's requests.
fn tally(admitted: u64, rejected: u64, controls: Vec<Control>) -> Tally {
    Tally {
        admitted,
        rejected,
        controls: Series::from_vec(controls),
    }
}

/// A tier in which no request was offered.
fn idle(alloc: Global) -> Tally {
    tally(0, 0, Vec::new(alloc))
}

/// The outcome of a capture of version 1, of these parts.
fn outcome(
    by_status: [u64; 9],
    bypassed: u64,
    samples: Vec<u64>,
    tiers: [Tally; 4],
    pools: Vec<PoolFigures>,
    rejected: Vec<usize>,
) -> Outcome {
    Outcome {
        version: Version::One,
        rejected: Series::from_vec(rejected),
        summary: Summary {
            counts: Counts { by_status },
            bypassed,
            samples: Series::from_vec(samples),
            tiers,
            pools: Series::from_vec(pools),
        },
    }
}

static FIRST: Control = Control {
    instant: 5000,
    percentile: 5000,
    smoothed: 1500,
    rate: 833,
};

static SECOND: Control = Control {
    instant: 5100,
    percentile: 100,
    smoothed: 1080,
    rate: 694,
};

/// Each status has another count; with two controls.
pub fn each_status(alloc: Global) -> Result<Outcome, AllocError> {
    let samples = Vec::from_slice(alloc, &[7, 9, 8])?;
    let rejected = Vec::from_slice(alloc, &[3, 44])?;
    let controls = Vec::from_slice(alloc, &[FIRST, SECOND])?;
    let tiers = [tally(3, 2, controls), idle(alloc), idle(alloc), idle(alloc)];
    Ok(outcome(
        [1, 2, 3, 4, 5, 6, 7, 8, 9],
        40,
        samples,
        tiers,
        Vec::new(alloc),
        rejected,
    ))
}

/// In tier 1 every request was rejected, in tier 3 none, and in tiers 0 and 2 none was offered.
fn four_tiers(alloc: Global) -> Result<[Tally; 4], AllocError> {
    let none = Vec::from_slice(alloc, &[SECOND])?;
    let both = Vec::from_slice(alloc, &[FIRST, SECOND])?;
    let unused = Vec::from_slice(alloc, &[FIRST])?;
    let one = Vec::from_slice(alloc, &[FIRST])?;
    Ok([
        tally(0, 0, none),
        tally(0, 2, both),
        tally(0, 0, unused),
        tally(1, 0, one),
    ])
}

static POOLS: [PoolFigures; 2] = [
    PoolFigures {
        admitted: 0,
        busy: 0,
        longest_queue: 0,
    },
    PoolFigures {
        admitted: 1,
        busy: 40,
        longest_queue: 2,
    },
];

/// The outcome of these, with two pools. One request was answered with 301, two with 503.
pub fn each_tier(alloc: Global) -> Result<Outcome, AllocError> {
    let samples = Vec::from_slice(alloc, &[50])?;
    let rejected = Vec::from_slice(alloc, &[0, 2])?;
    let pools = Vec::from_slice(alloc, &POOLS)?;
    match four_tiers(alloc) {
        Ok(tiers) => Ok(outcome(
            [0, 1, 0, 0, 0, 0, 0, 0, 2],
            0,
            samples,
            tiers,
            pools,
            rejected,
        )),
        Err(fault) => Err(fault),
    }
}

/// The numbers from 0 on below 100,000.
fn many_numbers(alloc: Global) -> Result<Vec<usize>, AllocError> {
    let mut numbers = Vec::new(alloc);
    for number in 0..100_000usize {
        numbers.push(number)?;
    }
    Ok(numbers)
}

/// Those from 100,000 down to 1.
fn many_samples(alloc: Global) -> Result<Vec<u64>, AllocError> {
    let mut samples = Vec::new(alloc);
    for number in 0..100_000u64 {
        samples.push(100_000 - number)?;
    }
    Ok(samples)
}

/// A control at each of the ticks from 0 on below 100,000.
fn many_controls(alloc: Global) -> Result<Vec<Control>, AllocError> {
    let mut controls = Vec::new(alloc);
    for instant in 0..100_000u64 {
        controls.push(Control {
            instant,
            percentile: 3,
            smoothed: 2,
            rate: 1,
        })?;
    }
    Ok(controls)
}

/// An outcome in this format: 100,000 requests that took 100,000 ticks down to 1, 100,000 that were turned away, and
/// two tiers that have 100,000 controls each.
pub fn many(alloc: Global, version: Version) -> Result<Outcome, AllocError> {
    let samples = many_samples(alloc)?;
    let rejected = many_numbers(alloc)?;
    let first = many_controls(alloc)?;
    let second = many_controls(alloc)?;
    let tiers = [
        tally(50_000, 50_000, first),
        tally(50_000, 50_000, second),
        idle(alloc),
        idle(alloc),
    ];
    Ok(Outcome {
        version,
        ..outcome([0; 9], 0, samples, tiers, Vec::new(alloc), rejected)
    })
}
