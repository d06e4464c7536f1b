//! The prefix of a route.

ghost use Rattle.std.specs.Prelude.{◌≡◌, IfOk, bytes_eq, map};
ghost use Rattle.std.specs.List.{list_all, starts_with};
ghost use Rattle.paths.specs.Snapshots.{is_part};
ghost use Rattle.cost_model.specs.Services.{parts_of, prefix_of, segments_after, without_slash};

use devices::Bytes;
use std::alloc::{AllocError, Global};
use std::marker::Model;

/// The segments that a path begins with, seen as their list.
#[derive(Drop)]
pub struct Prefix {
    segments: Vec<Bytes>,
}

impl Model for Prefix {
    ghost use Rattle.std.specs.Prelude.{ℕ, List};

    ghost Value = { List (List ℕ) };

    ghost view = { λ p. p.segments.items };
}

impl Prefix {
    /// The prefix that a text writes: `/`, or the segments of a decoded path with a slash before each, and maybe one
    /// more after the last. None where it doesn't begin with a slash, or has a segment that is empty, `.` or `..`.
    ///
    /// # Errors
    ///
    /// Memory ran out.
    pub fn read(alloc: Global, text: &[u8]) -> Result<Option<Prefix>, AllocError>
        ensures { IfOk result (λ found. found ≡ prefix_of text.now) }
    {
        match text.split_first() {
            Some((b'/', rest)) => segments_after(alloc, rest),
            _ => Ok(None),
        }
    }

    /// Whether a path begins with it.
    pub(crate) fn begins(&self, path: &[Bytes]) -> bool
        ensures { result ≡ starts_with bytes_eq path.now self.now }
    {
        begins_with(path, &self.segments)
    }
}

/// The segments after the first slash.
fn segments_after(alloc: Global, text: &[u8]) -> Result<Option<Prefix>, AllocError>
    ensures { IfOk result (λ found. found ≡ segments_after text.now) }
{
    if text.is_empty() {
        let segments = Vec::new(alloc);
        return Ok(Some(Prefix { segments }));
    }
    let segments = parts_of(alloc, without_slash(text))?;
    if are_whole(&segments) {
        return Ok(Some(Prefix { segments }));
    }
    Ok(None)
}

/// A text without the slash that it may end with.
fn without_slash(text: &[u8]) -> &[u8]
    ensures { result.now ≡ without_slash text.now }
{
    if text.ends_with(b"/") {
        return &text[..text.len() - 1];
    }
    text
}

/// What stands between slashes.
fn parts_of(alloc: Global, text: &[u8]) -> Result<Vec<Bytes>, AllocError>
    ensures { IfOk result (λ parts. parts.items ≡ parts_of text.now) }
{
    let parts = slices_of(alloc, text)?;
    let mut segments = Vec::with_capacity(alloc, parts.len())?;
    for part in &parts {
        segments.push(Bytes::from_vec(Vec::from_slice(alloc, part)?))?;
    }
    Ok(segments)
}

/// The same, where they lie.
fn slices_of(alloc: Global, text: &[u8]) -> Result<Vec<&[u8]>, AllocError>
    ensures { IfOk result (λ parts. map (λ part. part.now) parts.items ≡ parts_of text.now) }
{
    text.split(|byte| *byte == b'/').collect(alloc)
}

/// Whether each may be a segment.
fn are_whole(segments: &[Bytes]) -> bool
    ensures { result ≡ list_all is_part segments.now }
{
    segments.iter().all(|segment| is_part(segment.as_slice()))
}

/// Whether these bytes may be a segment: they aren't empty, `.` or `..`.
fn is_part(segment: &[u8]) -> bool
    ensures { result ≡ is_part segment.now }
{
    !segment.is_empty() && segment != b".".as_slice() && segment != b"..".as_slice()
}

/// Whether a path begins with these segments.
fn begins_with(path: &[Bytes], prefix: &[Bytes]) -> bool
    ensures { result ≡ starts_with bytes_eq path.now prefix.now }
{
    for (at, segment) in prefix.iter().enumerate() {
        match path.get(at) {
            Some(own) if segment.as_slice() == own.as_slice() => {}
            _ => return false,
        }
    }
    true
}
