//! The report of an outcome, line by line.

ghost use Rattle.std.specs.Prelude.{◌≡◌, ◌++◌, ◌≤◌, ◌<◌, ◌+◌, ◌^◌, OnOk, IfOk, length, flat_map};
ghost use Rattle.std.specs.String.{string_bytes};
ghost use Rattle.report.specs.Reports.{total_lines, status_line, status_lines, percentile_line, percentile_lines};
ghost use Rattle.report.specs.Reports.{numbered_from, numbered_lines};
ghost use Rattle.report.specs.Reports.{control_line, control_lines, left_out, tier_line, tier_lines};
ghost use Rattle.report.specs.Reports.{tiers_above_lines, all_tier_lines, pool_line, pool_lines};
ghost use Rattle.report.specs.Reports.{lines_before_rejects, reject_lines, report_text};

use crate::percentiles::{percentile, sorted};
use admission::{Control, PoolFigures};
use arrivals::Series;
use captures::Version;
use reference::{Counts, Outcome, Summary, Tally};
use responses::STATUS_CODES;
use std::alloc::{AllocError, Global};

/// The most controls of a tier that are listed of a text of traffic.
const MOST_LISTED: usize = 1000;

/// How many messages there were: 64 bits may not hold the sum.
fn messages(admitted: usize, rejected: usize, bypassed: u64) -> u128
    ensures { result ≡ admitted + rejected + bypassed }
{
    admitted as u128 + rejected as u128 + u128::from(bypassed)
}

/// Writes how many messages there were, and what became of them.
fn write_totals(text: &mut String, outcome: &Outcome) -> Result<(), AllocError>
    ensures { OnOk result
        (string_bytes text.new ≡ string_bytes text.old ++ total_lines outcome.now) }
{
    let admitted = outcome.summary.samples.as_slice().len();
    let rejected = outcome.rejected.as_slice().len();
    let bypassed = outcome.summary.bypassed;
    let messages = messages(admitted, rejected, bypassed);
    writeln!(text, "messages {messages}")?;
    writeln!(text, "bypassed {bypassed}")?;
    writeln!(text, "admitted {admitted}")?;
    writeln!(text, "rejected {rejected}")
}

/// Writes how many messages were answered with a status.
fn write_status(text: &mut String, status: u16, count: u64) -> Result<(), AllocError>
    ensures { OnOk result
        (string_bytes text.new ≡ string_bytes text.old ++ status_line status count) }
{
    writeln!(text, "status {status} {count}")
}

/// Writes how many messages were answered with each status.
fn write_statuses(text: &mut String, counts: Counts) -> Result<(), AllocError>
    ensures { OnOk result (string_bytes text.new ≡ string_bytes text.old ++ status_lines counts) }
{
    for (status, count) in STATUS_CODES.iter().zip(&counts.by_status) {
        write_status(text, *status, *count)?;
    }
    Ok(())
}

/// Writes a percentile of samples that are sorted.
fn write_percentile(text: &mut String, percent: u8, ordered: &[u64]) -> Result<(), AllocError>
    requires { percent ≤ 100 }
    ensures { OnOk result
        (string_bytes text.new ≡ string_bytes text.old ++ percentile_line percent ordered.now) }
{
    match percentile(ordered, percent) {
        Some(ticks) => writeln!(text, "p{percent} {ticks}"),
        None => writeln!(text, "p{percent} -"),
    }
}

/// Writes the percentiles of the samples, which are sorted where they lie.
fn write_percentiles(text: &mut String, samples: Vec<u64>) -> Result<(), AllocError>
    ensures { OnOk result
        (string_bytes text.new ≡ string_bytes text.old ++ percentile_lines samples.items) }
{
    let ordered = sorted(samples);
    write_percentile(text, 50, &ordered)?;
    write_percentile(text, 90, &ordered)?;
    write_percentile(text, 99, &ordered)
}

/// Writes the line of a control, by its number.
fn write_control(text: &mut String, number: usize, control: Control) -> Result<(), AllocError>
    ensures { OnOk result
        (string_bytes text.new ≡ string_bytes text.old ++ control_line number control) }
{
    writeln!(
        text,
        "control {number} {} {} {} {}",
        control.instant, control.percentile, control.smoothed, control.rate
    )
}

/// How many of so many controls stand before those that are listed.
fn left_out(version: Version, count: usize) -> usize
    ensures { result ≡ left_out version count }
{
    if version.used_again() {
        count.saturating_sub(MOST_LISTED)
    } else {
        0
    }
}

/// Writes the lines of controls that stand after so many others of their tier.
fn write_controls_after(
    text: &mut String,
    others: usize,
    controls: &[Control],
) -> Result<(), AllocError>
    requires { others + length controls.now < 2 ^ 64 }
    ensures { OnOk result (string_bytes text.new ≡ string_bytes text.old
        ++ flat_map (numbered_lines control_line) (numbered_from (others + 1) controls.now)) }
{
    for (index, control) in controls.iter().enumerate() {
        write_control(text, others + index + 1, *control)?;
    }
    Ok(())
}

/// Writes the lines of a tier's controls that are listed, by their numbers from 1.
fn write_controls(
    text: &mut String,
    version: Version,
    controls: &[Control],
) -> Result<(), AllocError>
    ensures { OnOk result
        (string_bytes text.new ≡ string_bytes text.old ++ control_lines version controls.now) }
{
    let first = left_out(version, controls.len());
    write_controls_after(text, first, &controls[first..])
}

/// Writes the lines of a tier above 0, if a request of it was offered.
fn write_tier(
    text: &mut String,
    version: Version,
    tier: usize,
    tally: &Tally,
) -> Result<(), AllocError>
    ensures { OnOk result
        (string_bytes text.new ≡ string_bytes text.old ++ tier_lines version tier tally.now) }
{
    if tally.admitted == 0 && tally.rejected == 0 {
        return Ok(());
    }
    write_tier_line(text, tier, tally)?;
    write_controls(text, version, tally.controls.as_slice())
}

/// Writes what became of a tier's requests.
fn write_tier_line(text: &mut String, tier: usize, tally: &Tally) -> Result<(), AllocError>
    ensures { OnOk result
        (string_bytes text.new ≡ string_bytes text.old ++ tier_line tier tally.now) }
{
    let controls = tally.controls.as_slice().len();
    writeln!(
        text,
        "tier {tier} {} {} {controls}",
        tally.admitted, tally.rejected
    )
}

/// Writes the lines of tiers, of which the first is tier 1.
fn write_tiers_above(
    text: &mut String,
    version: Version,
    tallies: &[Tally],
) -> Result<(), AllocError>
    ensures { OnOk result
        (string_bytes text.new ≡ string_bytes text.old ++ tiers_above_lines version tallies.now) }
{
    for (index, tally) in tallies.iter().enumerate() {
        write_tier(text, version, index + 1, tally)?;
    }
    Ok(())
}

/// Writes the controls of tier 0, and what became of the requests of the tiers above it.
fn write_tiers(text: &mut String, version: Version, tiers: &[Tally; 4]) -> Result<(), AllocError>
    ensures { OnOk result
        (string_bytes text.new ≡ string_bytes text.old ++ all_tier_lines version tiers.now) }
{
    let tiers = tiers.as_slice();
    let controls = tiers[0].controls.as_slice();
    writeln!(text, "controls {}", controls.len())?;
    write_controls(text, version, controls)?;
    write_tiers_above(text, version, &tiers[1..])
}

/// Writes the line of a pool, by its number.
fn write_pool(text: &mut String, pool: usize, figures: PoolFigures) -> Result<(), AllocError>
    ensures { OnOk result
        (string_bytes text.new ≡ string_bytes text.old ++ pool_line pool figures) }
{
    writeln!(
        text,
        "pool {pool} {} {} {}",
        figures.admitted, figures.busy, figures.longest_queue
    )
}

/// Writes the lines of the pools, of which the first is pool 0.
fn write_pools(text: &mut String, pools: &[PoolFigures]) -> Result<(), AllocError>
    ensures { OnOk result
        (string_bytes text.new ≡ string_bytes text.old ++ pool_lines pools.now) }
{
    for (pool, figures) in pools.iter().enumerate() {
        write_pool(text, pool, *figures)?;
    }
    Ok(())
}

/// Writes the numbers of the requests that were turned away.
fn write_rejects(text: &mut String, rejected: &[usize]) -> Result<(), AllocError>
    ensures { OnOk result
        (string_bytes text.new ≡ string_bytes text.old ++ reject_lines rejected.now) }
{
    for number in rejected {
        writeln!(text, "reject {number}")?;
    }
    Ok(())
}

/// The lines of a report that stand before those of the rejected requests, and the numbers of these.
#[tactic(auto, unfolding(crate::specs::Reports::lines_before_rejects))]
pub(crate) fn lines_before_rejects(
    alloc: Global,
    outcome: Outcome,
) -> Result<(String, Series<usize>), AllocError>
    ensures lines { IfOk result
        (λ parts. string_bytes parts.0 ≡ lines_before_rejects outcome) }
    ensures rejected { IfOk result (λ parts. parts.1 ≡ outcome.rejected) }
{
    let mut text = String::from_str(alloc, "haboob-report 1\n")?;
    write_totals(&mut text, &outcome)?;
    let Outcome {
        version,
        rejected,
        summary,
    } = outcome;
    let Summary {
        counts,
        samples,
        tiers,
        pools,
        ..
    } = summary;
    write_statuses(&mut text, counts)?;
    write_percentiles(&mut text, samples.into_vec())?;
    write_tiers(&mut text, version, &tiers)?;
    write_pools(&mut text, pools.as_slice())?;
    Ok((text, rejected))
}

/// The report of a replay: how many messages there were and what became of them, how many were answered with each
/// status, the percentiles of the admitted requests' times (in ticks of one microsecond), the changes of tier 0's rate,
/// for each tier above it with a request that was offered what became of its requests and the changes of its rate,
/// where there are several pools what each has done (its servers' work in ticks), and the numbers of the rejected
/// requests. docs/FORMATS.md has its format. The samples are sorted where they lie, and not kept a second time.
/// ([`crate::write_report`] writes it without the lines of the rejected requests in memory.)
///
/// # Errors
///
/// There was no memory for its text.
pub fn report(alloc: Global, outcome: Outcome) -> Result<String, AllocError>
    ensures { IfOk result (λ text. string_bytes text ≡ report_text outcome) }
{
    let (mut text, rejected) = lines_before_rejects(alloc, outcome)?;
    write_rejects(&mut text, rejected.as_slice())?;
    text.push_str("end\n")?;
    Ok(text)
}
