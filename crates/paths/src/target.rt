//! From a method and a target to what is asked for (RFC 9110, 9; 9112, 3.2; 3986, 3.3).

ghost use Rattle.std.specs.Prelude.{◌≡◌, ◌==◌, ◌||◌, ◌<◌, ◌≤◌, length, position, IfOk, IfSome, OnOk, OnErr, Option};
ghost use Rattle.std.specs.Prelude.{map, List, ℕ, true, [], ◌∷◌};
ghost use Rattle.std.specs.Option.{option_map};
ghost use Rattle.std.specs.List.{list_any, before_first, slice_split};
ghost use Rattle.percent_encoding.specs.Percent.{percent_decode};
ghost use Rattle.paths.specs.Reference.{slash, question_mark, number_sign, percent_sign, is_served, is_known, path_of};
ghost use Rattle.paths.specs.Reference.{begins_hexadecimal, has_good_escapes, is_nameless, is_here, is_up, walked};
ghost use Rattle.paths.specs.Reference.{asked_by, asked, segments_of, is_authority_end, after_authority};
ghost use Rattle.paths.specs.Resolution.{after_step};
ghost use Rattle.paths.specs.Resolution.{parts_of};

use crate::Segments;
use crate::bytes::is_text;
use devices::Bytes;
use std::alloc::{AllocError, Global};

/// What a request asks for, by its method and its target alone.
#[derive(Debug, Drop)]
pub enum Asked {
    /// The file or folder at these segments; in folder form, what stands for the folder itself.
    Path { segments: Segments, folder: bool },
    /// Something that no file can be named as.
    Missing,
    /// A target that is none.
    BadTarget,
    /// A known method that is not served.
    NotAllowed,
    /// A method that is not known.
    NotKnown,
}

/// What a segment did to a walk.
#[derive(Clone, Copy)]
pub enum WalkStep {
    /// The walk goes on.
    On,
    /// No file has a name with this segment.
    Missing,
    /// The segment leads above the root.
    AboveRoot,
}

/// What a request asks for, by its method (RFC 9110, 9.1) and its target (RFC 9112, 3.2): first the method is looked
/// at, then the target, then its segments from left to right.
pub fn inspect(alloc: Global, method: &[u8], target: &[u8]) -> Result<Asked, AllocError>
    ensures { IfOk result (λ a. a ≡ asked method.now target.now) }
{
    if !is_served(method) {
        if is_known(method) {
            return Ok(Asked::NotAllowed);
        }
        return Ok(Asked::NotKnown);
    }
    match path_of(target) {
        Some(path) => {
            if has_good_escapes(path) {
                walk(alloc, path)
            } else {
                Ok(Asked::BadTarget)
            }
        }
        None => Ok(Asked::BadTarget),
    }
}

/// Whether the method is one that is served.
pub(crate) fn is_served(method: &[u8]) -> bool
    ensures { result ≡ is_served method.now }
{
    method == b"GET".as_slice() || method == b"HEAD".as_slice()
}

/// Whether the method is one that HTTP defines, and that is not served.
fn is_known(method: &[u8]) -> bool
    ensures { result ≡ is_known method.now }
{
    method == b"POST".as_slice()
        || method == b"PUT".as_slice()
        || method == b"DELETE".as_slice()
        || method == b"CONNECT".as_slice()
        || method == b"OPTIONS".as_slice()
        || method == b"TRACE".as_slice()
}

/// Where the query begins.
fn first_query(text: &[u8]) -> Option<usize>
    ensures { result ≡ position (λ b. b == question_mark) text.now }
{
    text.iter().position(|byte| *byte == b'?')
}

/// What stands before the query.
fn without_query(text: &[u8]) -> &[u8]
    ensures { result.now ≡ before_first (λ b. b == question_mark) text.now }
{
    match first_query(text) {
        Some(at) => &text[..at],
        None => text,
    }
}

/// Where a slash or a query ends the authority of a target in absolute form.
fn authority_end(text: &[u8]) -> Option<usize>
    ensures { result ≡ position is_authority_end text.now }
{
    text.iter().position(|byte| *byte == b'/' || *byte == b'?')
}

/// What stands after the authority, where this is not empty.
fn after_authority(text: &[u8]) -> Option<&[u8]>
    ensures { option_map (λ p. p.now) result ≡ after_authority text.now }
{
    match authority_end(text) {
        Some(0) => None,
        Some(at) => Some(&text[at..]),
        None if text.is_empty() => None,
        None => Some(&text[text.len()..]),
    }
}

/// Whether a fragment stands in the target.
fn has_fragment(target: &[u8]) -> bool
    ensures { result ≡ list_any (λ b. b == number_sign) target.now }
{
    target.iter().any(|byte| *byte == b'#')
}

/// The path of a target, without its query.
fn path_of(target: &[u8]) -> Option<&[u8]>
    ensures { option_map (λ p. p.now) result ≡ path_of target.now }
{
    if has_fragment(target) {
        return None;
    }
    if target.starts_with(b"/") {
        return Some(without_query(target));
    }
    if target.len() >= 7 && target[..7].eq_ignore_ascii_case(b"http://") {
        return match after_authority(&target[7..]) {
            Some(path) => Some(without_query(path)),
            None => None,
        };
    }
    None
}

/// Whether two hexadecimal digits stand after each `%`.
fn has_good_escapes(path: &[u8]) -> bool
    ensures { result ≡ has_good_escapes path.now }
{
    for (at, byte) in path.iter().enumerate() {
        if *byte == b'%' && !begins_hexadecimal(&path[at + 1..]) {
            return false;
        }
    }
    true
}

/// Whether two hexadecimal digits come first.
fn begins_hexadecimal(text: &[u8]) -> bool
    ensures { result ≡ begins_hexadecimal text.now }
{
    text.len() >= 2 && text[0].is_ascii_hexdigit() && text[1].is_ascii_hexdigit()
}

/// What the segments of a path ask for.
fn walk(alloc: Global, path: &[u8]) -> Result<Asked, AllocError>
    ensures { IfOk result (λ a. a ≡ walked [] true (segments_of path.now)) }
{
    let mut kept = Segments::new(alloc);
    let mut folder = true;
    let mut ahead = if path.is_empty() {
        Some(path)
    } else {
        Some(&path[1..])
    };
    while let Some(text) = ahead {
        let (part, more) = split_segment(text);
        let segment = decode(alloc, part)?;
        match take_step(&mut kept, &mut folder, segment)? {
            WalkStep::On => ahead = more,
            WalkStep::Missing => return Ok(Asked::Missing),
            WalkStep::AboveRoot => return Ok(Asked::BadTarget),
        }
    }
    Ok(Asked::Path {
        segments: kept,
        folder,
    })
}

/// What stands before the first slash, and what stands after it where there is one.
fn split_segment(text: &[u8]) -> (&[u8], Option<&[u8]>)
    ensures { slice_split (λ b. b == slash) text.now ≡ result.0.now
        ∷ parts_of (option_map (λ t. t.now) result.1) }
{
    match first_slash(text) {
        Some(at) => (&text[..at], Some(&text[at + 1..])),
        None => (text, None),
    }
}

/// Where the first slash is.
fn first_slash(text: &[u8]) -> Option<usize>
    ensures { result ≡ position (λ b. b == slash) text.now }
{
    text.iter().position(|byte| *byte == b'/')
}

/// Whether an escape may stand in a segment.
fn has_escape(part: &[u8]) -> bool
    ensures { result ≡ list_any (λ b. b == percent_sign) part.now }
{
    part.iter().any(|byte| *byte == b'%')
}

/// The bytes that a segment's escapes and other bytes stand for.
fn decode(alloc: Global, part: &[u8]) -> Result<Bytes, AllocError>
    ensures { IfOk result (λ b. b ≡ percent_decode part.now) }
{
    if !has_escape(part) {
        return Ok(Bytes::from_vec(Vec::from_slice(alloc, part)?));
    }
    let mut bytes = Vec::with_capacity(alloc, part.len())?;
    percent_encoding::percent_decode(part).append_to(&mut bytes)?;
    Ok(Bytes::from_vec(bytes))
}

/// Walks over one decoded segment.
fn take_step(kept: &mut Segments, folder: &mut bool, segment: Bytes) -> Result<WalkStep, AllocError>
    ensures { IfOk result (λ step. (more : List (List ℕ)) →
        walked kept.old folder.old (segment ∷ more) ≡ after_step step kept.new folder.new more) }
{
    if is_nameless(segment.as_slice()) {
        return Ok(WalkStep::Missing);
    }
    if segment.as_slice().is_empty() || segment.as_slice() == b".".as_slice() {
        *folder = true;
        return Ok(WalkStep::On);
    }
    if segment.as_slice() == b"..".as_slice() {
        if kept.is_empty() {
            return Ok(WalkStep::AboveRoot);
        }
        kept.drop_last();
        *folder = true;
        return Ok(WalkStep::On);
    }
    kept.push(segment)?;
    *folder = false;
    Ok(WalkStep::On)
}

/// Whether no file's name has this segment as a part.
fn is_nameless(segment: &[u8]) -> bool
    ensures { result ≡ is_nameless segment.now }
{
    !is_text(segment) || has_separator(segment)
}

/// Whether byte 0 or a slash is in the segment.
fn has_separator(segment: &[u8]) -> bool
    ensures { result ≡ list_any (λ b. b == 0 || b == slash) segment.now }
{
    segment.iter().any(|byte| *byte == 0 || *byte == b'/')
}
