//! Writing the table: its heading, and its rows.

ghost use Rattle.std.specs.Prelude.{◌≡◌, ◌<◌, ◌-◌, ◌^◌};
ghost use Rattle.devices.specs.Devices.{CanFail, WritesProperPrefix, CountsFailed};
ghost use Rattle.decision_table.specs.Rows.{heading, row_text};

use crate::Row;
use crate::line::row_line;
use crate::text::write_text;
use devices::{Failed, Output};
use std::io::Write;

/// The heading, with a column of pools or without one.
fn heading(pools: bool) -> &'static [u8]
    ensures { result.now ≡ heading pools }
{
    if pools {
        b"number,connection,tick,tier,status,decision,service,credit,rate,start,finish,waited,pool,method,target\n"
    } else {
        b"number,connection,tick,tier,status,decision,service,credit,rate,start,finish,waited,method,target\n"
    }
}

/// Writes the heading, with a column of pools or without one. At an `Err` the writer failed in this call, and a prefix
/// of the heading stands there.
pub fn write_heading<W: Write>(output: &mut Output<W>, pools: bool) -> Result<(), Failed>
    requires { CanFail output.old }
    ensures prefix { WritesProperPrefix output.old.bytes output.new.bytes result (heading pools) }
    ensures count { CountsFailed output.old.failures output.new.failures result }
{
    output.write_all(heading(pools))
}

/// Writes the row of a message with this method and target, both empty where it breaks a rule of HTTP. It takes no
/// memory. At an `Err` the writer failed in this call, and a prefix of the row stands there.
pub fn write_row<W: Write>(
    output: &mut Output<W>,
    row: &Row,
    method: &[u8],
    target: &[u8],
) -> Result<(), Failed>
    requires { CanFail output.old }
    ensures prefix { WritesProperPrefix output.old.bytes output.new.bytes result
        (row_text row.now method.now target.now) }
    ensures count { CountsFailed output.old.failures output.new.failures result }
{
    let line = row_line(row);
    output.write_all(line.as_slice())?;
    write_text(output, method)?;
    output.write_all(b",")?;
    write_text(output, target)?;
    output.write_all(b"\n")?;
    Ok(())
}
