//! The texts of a snapshot, written one after another.

ghost use Rattle.std.specs.Prelude.{◌≡◌, ◌<◌, ◌-◌, ◌^◌, ◌++◌, ◌∷◌, [], codes, decimal, IfOk};
ghost use Rattle.std.specs.String.{string_bytes};
ghost use Rattle.devices.specs.Reference.{line_feed};
ghost use Rattle.devices.specs.Devices.{CanFail, WritesProperPrefix, CountsFailed};
ghost use Rattle.paths.specs.Snapshots.{file_line};
ghost use Rattle.snapshots.specs.Keeping.{a_file};

use devices::{Failed, Output};
use std::alloc::{AllocError, Global};
use std::io::Write;

/// What stands before the bytes of a file: its line and its name.
pub(crate) fn file_head(
    alloc: Global,
    name: &[u8],
    mtime: u64,
    bytes: &[u8],
) -> Result<Vec<u8>, AllocError>
    ensures { IfOk result (λ head. head.items
        ≡ (file_line (a_file name.now mtime bytes.now) ++ line_feed ∷ []) ++ (name.now ++ line_feed ∷ [])) }
{
    let line = format!(in alloc; "file {mtime} {} {}\n", name.len(), bytes.len())?;
    let mut head = line.into_bytes();
    head.extend_from_slice(name)?;
    head.push(b'\n')?;
    Ok(head)
}

/// Writes a file: what stands before its bytes, these, and a line feed.
pub(crate) fn write_file<W: Write>(
    output: &mut Output<W>,
    head: &[u8],
    bytes: &[u8],
) -> Result<(), Failed>
    requires { CanFail output.old }
    ensures prefix { WritesProperPrefix output.old.bytes output.new.bytes result
        (head.now ++ (bytes.now ++ line_feed ∷ [])) }
    ensures count { CountsFailed output.old.failures output.new.failures result }
{
    match output.write_all(head) {
        Ok(()) => output.write_both(bytes, b"\n"),
        Err(Failed) => Err(Failed),
    }
}

/// The last line, with its line feed.
pub(crate) fn last_line(alloc: Global, count: usize) -> Result<String, AllocError>
    ensures { IfOk result
        (λ line. string_bytes line ≡ (codes "end " ++ decimal count) ++ line_feed ∷ []) }
{
    format!(in alloc; "end {count}\n")
}
