//! Pushing a field, a number or a date.

ghost use Rattle.std.specs.Prelude.{◌≤◌, [], ◌∷◌, decimal};
ghost use Rattle.paths.specs.Snapshots.{max_time};
ghost use Rattle.responses.specs.Reference.{imf_date};
ghost use Rattle.responses.specs.Replies.{AddsFields};

use crate::dates::DateText;
use itoa::Buffer;
use std::alloc::AllocError;

/// Adds a field after a head.
#[inline(always)]
pub(crate) fn push_field(head: &mut Vec<u8>, name: &[u8], value: &[u8]) -> Result<(), AllocError>
    ensures { AddsFields head.old.items head.new.items result ((name.now, value.now) ∷ []) }
{
    head.extend_from_slice(name)?;
    head.extend_from_slice(b": ")?;
    head.extend_from_slice(value)?;
    head.extend_from_slice(b"\r\n")?;
    Ok(())
}

/// Adds a field whose value is a number.
pub(crate) fn push_number(head: &mut Vec<u8>, name: &[u8], number: u64) -> Result<(), AllocError>
    ensures { AddsFields head.old.items head.new.items result ((name.now, decimal number) ∷ []) }
{
    let mut buffer = Buffer::new();
    push_field(head, name, buffer.format(number).as_bytes())
}

/// Adds a field whose value is the date of a second. `date` turns to that second.
pub(crate) fn push_date(
    head: &mut Vec<u8>,
    date: &mut DateText,
    name: &[u8],
    second: u64,
) -> Result<(), AllocError>
    requires { second ≤ max_time }
    ensures { AddsFields head.old.items head.new.items result ((name.now, imf_date second) ∷ []) }
{
    date.turn_to(second);
    push_field(head, name, &date.text)
}
