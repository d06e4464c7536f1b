//! A field of bytes, percent-encoded where they would part cells or lines, or begin a formula.

ghost use Rattle.std.specs.Prelude.{◌≡◌, ◌<◌, ◌-◌, ◌^◌};
ghost use Rattle.devices.specs.Devices.{CanFail, WritesProperPrefix, CountsFailed};
ghost use Rattle.decision_table.specs.Rows.{begins_formula, text_bytes, text_field};

use devices::{Failed, Output};
use percent_encoding::{AsciiSet, CONTROLS, ascii_set, percent_encode, percent_encode_byte};
use std::io::Write;

/// The bytes that a field escapes wherever they stand, beside those outside ASCII.
const ESCAPED: AsciiSet = ascii_set!(CONTROLS.add(b' ').add(b'"').add(b'%').add(b',').add(b';'));

/// Whether a spreadsheet takes a cell that begins with this byte for a formula.
fn begins_formula(byte: u8) -> bool
    ensures { result ≡ begins_formula byte }
{
    byte == b'=' || byte == b'+' || byte == b'-' || byte == b'@'
}

/// Writes bytes as they stand within a field.
fn write_bytes<W: Write>(output: &mut Output<W>, bytes: &[u8]) -> Result<(), Failed>
    requires { CanFail output.old }
    ensures prefix { WritesProperPrefix
        output.old.bytes output.new.bytes result (text_bytes bytes.now) }
    ensures count { CountsFailed output.old.failures output.new.failures result }
{
    for piece in percent_encode(bytes, ESCAPED) {
        output.write_all(piece.as_bytes())?;
    }
    Ok(())
}

/// Writes bytes as a field. It takes no memory.
pub(crate) fn write_text<W: Write>(output: &mut Output<W>, bytes: &[u8]) -> Result<(), Failed>
    requires { CanFail output.old }
    ensures prefix { WritesProperPrefix
        output.old.bytes output.new.bytes result (text_field bytes.now) }
    ensures count { CountsFailed output.old.failures output.new.failures result }
{
    let Some((first, others)) = bytes.split_first() else {
        return Ok(());
    };
    if !begins_formula(*first) {
        return write_bytes(output, bytes);
    }
    output.write_all(percent_encode_byte(*first).as_bytes())?;
    write_bytes(output, others)
}
