//! A reply as a record of the replies text.

ghost use Rattle.std.specs.Prelude.{◌≡◌, ◌<◌, ◌≤◌, ◌+◌, ◌-◌, ◌^◌, ◌++◌, [], ◌∷◌, decimal};
ghost use Rattle.devices.specs.Devices.{CanFail, WritesProperPrefix, CountsFailed};
ghost use Rattle.arrayvec.specs.ArrayVec.{array_vec_len};
ghost use Rattle.responses.specs.Reference.{record_text};
ghost use Rattle.responses.specs.Replies.{record_line};

use crate::Reply;
use arrayvec::ArrayVec;
use devices::{Failed, Output};
use itoa::Buffer;
use paths::Tree;
use std::io;

/// Room for `reply ` and three numbers of 64 bits, each with a byte after it.
type Line = ArrayVec<u8, 69>;

/// Adds a number and a byte after it.
fn push_number(line: &mut Line, number: usize, end: u8)
    requires { array_vec_len line.old ≤ 48 }
    ensures text { line.new.items ≡ line.old.items ++ (decimal number ++ end ∷ []) }
    ensures len { array_vec_len line.new ≤ array_vec_len line.old + 21 }
{
    let mut buffer = Buffer::new();
    line.try_extend_from_slice(buffer.format(number).as_bytes())
        .unwrap();
    line.push(end);
}

/// The line before a reply of n bytes.
fn record_line(number: usize, conn: usize, len: usize) -> Line
    ensures { result.items ≡ record_line number conn len }
{
    let mut line = Line::new();
    line.try_extend_from_slice(b"reply ").unwrap();
    push_number(&mut line, number, b' ');
    push_number(&mut line, conn, b' ');
    push_number(&mut line, len, b'\n');
    line
}

/// Writes the record of a reply that stands in two parts: a line with its number, the number of its connection and its
/// length, then the reply and a line feed. It takes no memory. At an `Err` the writer failed in this call, and a prefix
/// of the record stands there.
pub fn write_record<W: io::Write>(
    output: &mut Output<W>,
    number: usize,
    conn: usize,
    front: &[u8],
    body: &[u8],
) -> Result<(), Failed>
    requires { CanFail output.old }
    ensures record { WritesProperPrefix output.old.bytes output.new.bytes result
        (record_text (number, conn, front.now ++ body.now)) }
    ensures count { CountsFailed output.old.failures output.new.failures result }
{
    let line = record_line(number, conn, front.len() + body.len());
    output.write_all(line.as_slice())?;
    output.write_all(front)?;
    output.write_all(body)?;
    output.write_all(b"\n")?;
    Ok(())
}

/// Writes the record of a reply, as [`write_record`] does.
pub fn write_reply<F: Tree, W: io::Write>(
    output: &mut Output<W>,
    reply: &Reply<F>,
) -> Result<(), Failed>
    requires { CanFail output.old }
    ensures record { WritesProperPrefix output.old.bytes output.new.bytes result
        (record_text reply.now) }
    ensures count { CountsFailed output.old.failures output.new.failures result }
{
    let (front, body) = reply.parts();
    write_record(output, reply.number(), reply.conn(), front, body)
}
