//! What is written of an inspection, line by line.

ghost use Rattle.std.specs.Prelude.{◌≡◌, ◌++◌, OnOk, IfOk};
ghost use Rattle.std.specs.String.{string_bytes};
ghost use Rattle.std.specs.Prelude.{codes};
ghost use Rattle.inspection.specs.Texts.{version_name, line, line_of_two, capture_lines, record_lines, tick_line};
ghost use Rattle.inspection.specs.Texts.{open_line, received_lines, method_lines, version_lines, fault_lines};
ghost use Rattle.inspection.specs.Texts.{inspection_text};

use crate::{FaultCounts, Inspection, MethodCounts, RecordCounts, Share, VersionCounts};
use captures::Version;
use std::alloc::{AllocError, Global};

/// What a format is called.
fn version_name(version: Version) -> &'static str
    ensures { result.now ≡ version_name version }
{
    match version {
        Version::One => "1",
        Version::Two => "2",
        Version::Traffic => "traffic",
    }
}

/// Writes a line of a name and a number.
fn write_line(text: &mut String, name: &str, number: u64) -> Result<(), AllocError>
    ensures { OnOk result (string_bytes text.new ≡ string_bytes text.old ++ line name.now number) }
{
    writeln!(text, "{name} {number}")
}

/// Writes a line of a name and two numbers.
fn write_line_of_two(
    text: &mut String,
    name: &str,
    first: u64,
    second: u64,
) -> Result<(), AllocError>
    ensures { OnOk result
        (string_bytes text.new ≡ string_bytes text.old ++ line_of_two name.now first second) }
{
    writeln!(text, "{name} {first} {second}")
}

/// Writes the format and the start.
fn write_capture(text: &mut String, version: Version, start: u64) -> Result<(), AllocError>
    ensures { OnOk result
        (string_bytes text.new ≡ string_bytes text.old ++ capture_lines version start) }
{
    let name = version_name(version);
    writeln!(text, "version {name}")?;
    writeln!(text, "start {start}")
}

/// Writes how many records there are.
fn write_records(text: &mut String, counts: &RecordCounts) -> Result<(), AllocError>
    ensures { OnOk result
        (string_bytes text.new ≡ string_bytes text.old ++ record_lines counts.now) }
{
    writeln!(text, "records {}", counts.all)?;
    writeln!(text, "pieces {}", counts.pieces)?;
    writeln!(text, "ends {}", counts.ends)?;
    writeln!(text, "tiers {}", counts.tiers)
}

/// Writes a tick, or a hyphen where there is none.
fn write_tick(text: &mut String, name: &str, tick: Option<u64>) -> Result<(), AllocError>
    ensures { OnOk result
        (string_bytes text.new ≡ string_bytes text.old ++ tick_line name.now tick) }
{
    match tick {
        Some(tick) => writeln!(text, "{name} {tick}"),
        None => writeln!(text, "{name} -"),
    }
}

/// Writes the most connections that were open at once, of traffic.
fn write_open(text: &mut String, version: Version, most: u64) -> Result<(), AllocError>
    ensures { OnOk result
        (string_bytes text.new ≡ string_bytes text.old ++ open_line version most) }
{
    match version {
        Version::One | Version::Two => Ok(()),
        Version::Traffic => write_line(text, "open", most),
    }
}

/// Writes how many connections sent something, and how many bytes.
fn write_received(
    text: &mut String,
    version: Version,
    share: Share,
    most_open: u64,
) -> Result<(), AllocError>
    ensures { OnOk result
        (string_bytes text.new ≡ string_bytes text.old ++ received_lines version share most_open) }
{
    write_line(text, "connections", share.connections)?;
    write_open(text, version, most_open)?;
    write_line(text, "bytes", share.bytes)
}

/// Writes how many requests have each method.
fn write_methods(text: &mut String, counts: MethodCounts) -> Result<(), AllocError>
    ensures { OnOk result (string_bytes text.new ≡ string_bytes text.old ++ method_lines counts) }
{
    writeln!(text, "method GET {}", counts.get)?;
    writeln!(text, "method HEAD {}", counts.head)?;
    writeln!(text, "method other {}", counts.other)
}

/// Writes how many requests have each version of HTTP.
fn write_versions(text: &mut String, counts: VersionCounts) -> Result<(), AllocError>
    ensures { OnOk result (string_bytes text.new ≡ string_bytes text.old ++ version_lines counts) }
{
    write_line(text, "protocol HTTP/1.0", counts.http10)?;
    write_line(text, "protocol HTTP/1.1", counts.http11)
}

/// Writes how many messages have each fault.
fn write_faults(text: &mut String, counts: FaultCounts) -> Result<(), AllocError>
    ensures { OnOk result (string_bytes text.new ≡ string_bytes text.old ++ fault_lines counts) }
{
    writeln!(text, "fault TooLong {}", counts.too_long)?;
    writeln!(text, "fault Block {}", counts.block)?;
    writeln!(text, "fault Host {}", counts.host)?;
    writeln!(text, "fault Coding {}", counts.coding)?;
    writeln!(text, "fault Length {}", counts.length)?;
    writeln!(text, "fault BodySize {}", counts.body_size)
}

/// The text of what a capture or a text of traffic holds. docs/FORMATS.md has its format.
///
/// # Errors
///
/// There was no memory for it.
#[tactic(auto, unfolding(crate::specs::Texts::inspection_text))]
pub fn inspection_text(alloc: Global, inspection: &Inspection) -> Result<String, AllocError>
    ensures { IfOk result (λ text. string_bytes text ≡ inspection_text inspection.now) }
{
    let mut text = String::from_str(alloc, "haboob-inspection 1\n")?;
    write_capture(&mut text, inspection.version, inspection.start)?;
    write_records(&mut text, &inspection.records)?;
    write_tick(&mut text, "first", inspection.first_tick)?;
    write_tick(&mut text, "last", inspection.last_tick)?;
    write_received(
        &mut text,
        inspection.version,
        inspection.received,
        inspection.most_open,
    )?;
    write_line(&mut text, "messages", inspection.messages.all)?;
    write_line(&mut text, "requests", inspection.messages.requests)?;
    write_methods(&mut text, inspection.messages.methods)?;
    write_versions(&mut text, inspection.messages.versions)?;
    write_faults(&mut text, inspection.messages.faults)?;
    let after_close = inspection.after_close;
    write_line_of_two(
        &mut text,
        "after-close",
        after_close.bytes,
        after_close.connections,
    )?;
    let unfinished = inspection.unfinished;
    write_line_of_two(
        &mut text,
        "unfinished",
        unfinished.bytes,
        unfinished.connections,
    )?;
    let busiest = inspection.busiest;
    write_line_of_two(&mut text, "busiest", busiest.number, busiest.messages)?;
    text.push_str("end\n")?;
    Ok(text)
}
