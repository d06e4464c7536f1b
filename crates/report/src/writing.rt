//! A report written to a device: the lines of its rejected requests are never in memory.

ghost use Rattle.std.specs.Prelude.{◌≡◌, ◌++◌, codes, ◌-◌, ◌<◌, ◌^◌, OnOk, IfErr};
ghost use Rattle.std.specs.Io.KnownBytes.{Appends};
ghost use Rattle.devices.specs.Devices.{CanFail, CountsBy, CountsFailed, WritesProperPrefix};
ghost use Rattle.report.specs.Reports.{reject_line, reject_lines, report_text, IsReportFault, writer_failures};

use crate::reports::lines_before_rejects;
use arrayvec::ArrayVec;
use devices::{Failed, Output};
use itoa::Buffer;
use reference::Outcome;
use std::alloc::{AllocError, Global};
use std::io::Write;
use thiserror::Error;

/// Why a report isn't written whole.
#[derive(Clone, Copy, Debug, PartialEq, Eq, Error)]
pub enum ReportFault {
    /// The device failed.
    #[error("the report can't be written")]
    Write,
    /// There was no memory for the lines before those of the rejected requests.
    #[error("out of memory")]
    Memory,
}

impl From<AllocError> for ReportFault {
    ghost use Rattle.report.specs.declared.writing.ReportFault.TheVariants.{Memory};

    ghost from_gives = { λ refused fault. fault ≡ Memory };

    fn from(_refused: AllocError) -> ReportFault {
        ReportFault::Memory
    }
}

/// Room for `reject `, a number of 64 bits and a line feed.
type Line = ArrayVec<u8, 28>;

/// The line of a rejected request.
fn reject_line(number: usize) -> Line
    ensures { result.items ≡ reject_line number }
{
    let mut line = Line::new();
    let mut digits = Buffer::new();
    line.try_extend_from_slice(b"reject ").unwrap();
    line.try_extend_from_slice(digits.format(number).as_bytes())
        .unwrap();
    line.push(b'\n');
    line
}

/// Writes the lines of the rejected requests, one after another. It takes no memory.
fn write_rejects<W: Write>(out: &mut Output<W>, rejected: &[usize]) -> Result<(), Failed>
    requires { CanFail out.old }
    ensures lines { WritesProperPrefix out.old.bytes out.new.bytes result
        (reject_lines rejected.now) }
    ensures count { CountsFailed out.old.failures out.new.failures result }
{
    for number in rejected {
        out.write_all(reject_line(*number).as_slice())?;
    }
    Ok(())
}

/// Writes the lines before those of the rejected requests, these, and the last line. It takes no memory.
fn write_lines<W: Write>(
    out: &mut Output<W>,
    before: &[u8],
    rejected: &[usize],
) -> Result<(), Failed>
    requires { CanFail out.old }
    ensures lines { WritesProperPrefix out.old.bytes out.new.bytes result
        (before.now ++ reject_lines rejected.now ++ codes "end\n") }
    ensures count { CountsFailed out.old.failures out.new.failures result }
{
    out.write_all(before)?;
    write_rejects(out, rejected)?;
    out.write_all(b"end\n")
}

/// Writes the report of a replay, as [`crate::report`] gives it. Memory holds its lines up to those of the rejected
/// requests, which are written one by one: of long traffic these are most of it.
///
/// # Errors
///
/// `Memory` where there is none for the lines before them, and then nothing is written; `Write` where the device failed
/// in this call, and then a prefix stands, and not all.
pub fn write_report<W: Write>(
    alloc: Global,
    outcome: Outcome,
    out: &mut Output<W>,
) -> Result<(), ReportFault>
    requires { CanFail out.old }
    ensures ok { OnOk result (Appends out.old.bytes out.new.bytes (report_text outcome)) }
    ensures fault { IfErr result (IsReportFault (report_text outcome) out.old out.new) }
    ensures count { CountsBy writer_failures out.old.failures out.new.failures result }
{
    let (text, rejected) = lines_before_rejects(alloc, outcome)?;
    match write_lines(out, text.as_bytes(), rejected.as_slice()) {
        Ok(()) => Ok(()),
        Err(_) => Err(ReportFault::Write),
    }
}
