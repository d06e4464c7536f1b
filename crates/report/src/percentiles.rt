//! Percentiles by the nearest rank.

ghost use Rattle.std.specs.Prelude.{◌≡◌, ◌≤◌};
ghost use Rattle.admission.specs.Reference.{sorted};
ghost use Rattle.report.specs.Reports.{percentile, rank};

/// The samples from the least to the greatest, where they lie.
pub(crate) fn sorted(samples: Vec<u64>) -> Vec<u64>
    ensures { result.items ≡ sorted samples.items }
{
    let mut ordered = samples;
    ordered.sort_unstable();
    ordered
}

/// The rank of a percentile of n samples, counted from 1: `ceil(percent * count / 100)`.
fn rank(percent: u8, count: usize) -> usize
    requires { percent ≤ 100 }
    ensures nearest { result ≡ rank percent count }
    ensures within { result ≤ count }
{
    (u128::from(percent) * count as u128).div_ceil(100) as usize
}

/// A percentile of samples that are sorted, by the nearest rank; `None` of no samples.
pub(crate) fn percentile(ordered: &[u64], percent: u8) -> Option<u64>
    requires { percent ≤ 100 }
    ensures { result ≡ percentile percent ordered.now }
{
    let place = rank(percent, ordered.len()).saturating_sub(1);
    ordered.get(place).copied()
}
