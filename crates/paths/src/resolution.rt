//! From what is asked to the file, the location or the fault that answers it.

ghost use Rattle.std.specs.Prelude.{◌≡◌, ◌++◌, [], ◌∷◌, true, false, IfOk, IfSome, OnOk, string_bytes, codes, flat_map};
ghost use Rattle.std.specs.List.{list_all};
ghost use Rattle.paths.specs.Reference.{slash, asked, outcome, joined, location, location_byte};
ghost use Rattle.paths.specs.Resolution.{is_plain, plain_file};
ghost use Rattle.paths.specs.Resolution.{IsOutcome, slash_before};

use crate::target::is_served;
use crate::{Asked, Segments, Snapshot, inspect};
use devices::Bytes;
use percent_encoding::{AsciiSet, NON_ALPHANUMERIC, ascii_set, percent_encode};
use std::alloc::{AllocError, Global};

/// What a request is answered with.
#[derive(Debug, Drop)]
pub enum Outcome {
    /// The file of this number.
    File(usize),
    /// A redirect to this location: the encoded path of a folder, with its last slash.
    Move(Bytes),
    /// No file has the name.
    Missing,
    /// The target is none.
    BadTarget,
    /// The method is known, and not served.
    NotAllowed,
    /// The method is not known.
    NotKnown,
}

/// The bytes that a location escapes, beside those outside ASCII: all but letters, digits and `-._~` (RFC 3986, 2.3).
const RESERVED: AsciiSet = ascii_set!(
    NON_ALPHANUMERIC
        .remove(b'-')
        .remove(b'.')
        .remove(b'_')
        .remove(b'~')
);

/// What a request is answered with, by what it asks for and the names of the snapshot.
pub fn locate(alloc: Global, files: &Snapshot, asked: &Asked) -> Result<Outcome, AllocError>
    ensures outcome { IfOk result (λ o. o ≡ outcome files.now asked.now) }
    ensures is { IfOk result (IsOutcome files.now) }
{
    match asked {
        Asked::Path {
            segments,
            folder: true,
        } => find_index(alloc, files, segments),
        Asked::Path {
            segments,
            folder: false,
        } => find_file(alloc, files, segments),
        Asked::Missing => Ok(Outcome::Missing),
        Asked::BadTarget => Ok(Outcome::BadTarget),
        Asked::NotAllowed => Ok(Outcome::NotAllowed),
        Asked::NotKnown => Ok(Outcome::NotKnown),
    }
}

/// Whether a byte of a path stands for itself: it is ASCII, and no byte 0, `#`, `%` or `?`.
fn is_plain(byte: u8) -> bool
    ensures { result ≡ is_plain byte }
{
    byte < 128 && byte != 0 && byte != b'#' && byte != b'%' && byte != b'?'
}

/// Whether each byte of a target stands for itself.
fn is_plain_target(target: &[u8]) -> bool
    ensures { result ≡ list_all is_plain target.now }
{
    target.iter().all(|byte| is_plain(*byte))
}

/// The file that a request asks for whose target names it as it stands, byte for byte after the first slash: where one
/// is found, it is what [`resolve`] answers. It takes no memory.
pub fn find_plain(files: &Snapshot, method: &[u8], target: &[u8]) -> Option<usize>
    ensures found { result ≡ plain_file files.now method.now target.now }
    ensures outcome { IfSome result
        (λ file. Outcome.File file ≡ outcome files.now (asked method.now target.now)) }
    ensures is { IfSome result (λ file. IsOutcome files.now (Outcome.File file)) }
{
    if !is_served(method) || !is_plain_target(target) {
        return None;
    }
    match target.split_first() {
        Some((b'/', name)) => files.position(name),
        _ => None,
    }
}

/// What a request is answered with, by its method, its target and the names of the snapshot.
pub fn resolve(
    alloc: Global,
    files: &Snapshot,
    method: &[u8],
    target: &[u8],
) -> Result<Outcome, AllocError>
    ensures outcome { IfOk result (λ o. o ≡ outcome files.now (asked method.now target.now)) }
    ensures is { IfOk result (IsOutcome files.now) }
{
    if let Some(file) = find_plain(files, method, target) {
        return Ok(Outcome::File(file));
    }
    let asked = inspect(alloc, method, target)?;
    locate(alloc, files, &asked)
}

/// The `index.html` of the folder at these segments.
#[tactic(auto, using(crate::proofs::Locations::outcome_is))]
fn find_index(alloc: Global, files: &Snapshot, segments: &Segments) -> Result<Outcome, AllocError>
    ensures outcome { IfOk result (λ o. o ≡ outcome files.now (Asked.Path segments.now true)) }
    ensures is { IfOk result (IsOutcome files.now) }
{
    let name = index_name(alloc, segments)?;
    match files.position(&name) {
        Some(file) => Ok(Outcome::File(file)),
        None => Ok(Outcome::Missing),
    }
}

/// The name of the `index.html` of the folder at these segments.
fn index_name(alloc: Global, segments: &Segments) -> Result<Vec<u8>, AllocError>
    ensures { IfOk result (λ name. name.items ≡ joined (segments.now ++ codes "index.html" ∷ [])) }
{
    let mut name = join(alloc, segments.as_slice())?;
    append_segment(&mut name, segments.is_empty(), b"index.html")?;
    Ok(name)
}

/// The file at these segments, or the location of the folder there.
#[tactic(auto, using(crate::proofs::Locations::location_visible))]
fn find_file(alloc: Global, files: &Snapshot, segments: &Segments) -> Result<Outcome, AllocError>
    ensures outcome { IfOk result (λ o. o ≡ outcome files.now (Asked.Path segments.now false)) }
    ensures is { IfOk result (IsOutcome files.now) }
{
    let mut name = join(alloc, segments.as_slice())?;
    if let Some(file) = files.position(&name) {
        return Ok(Outcome::File(file));
    }
    name.push(b'/')?;
    if files.has_folder(&name) {
        let to = location_of(alloc, segments.as_slice())?;
        return Ok(Outcome::Move(to));
    }
    Ok(Outcome::Missing)
}

/// Room for most names, in bytes.
const NAME_CAPACITY: usize = 64;

/// The segments, with a slash between each two.
fn join(alloc: Global, segments: &[Bytes]) -> Result<Vec<u8>, AllocError>
    ensures { IfOk result (λ name. name.items ≡ joined segments.now) }
{
    let mut name = Vec::with_capacity(alloc, NAME_CAPACITY)?;
    for (at, segment) in segments.iter().enumerate() {
        append_segment(&mut name, at == 0, segment.as_slice())?;
    }
    Ok(name)
}

/// Adds a segment after a name, and a slash between them where it isn't the first.
fn append_segment(name: &mut Vec<u8>, first: bool, segment: &[u8]) -> Result<(), AllocError>
    ensures { OnOk result (name.new.items ≡ name.old.items ++ (slash_before first ++ segment.now)) }
{
    if !first {
        name.push(b'/')?;
    }
    name.extend_from_slice(segment)?;
    Ok(())
}

/// The location of the folder at these segments.
fn location_of(alloc: Global, segments: &[Bytes]) -> Result<Bytes, AllocError>
    ensures { IfOk result (λ to. to ≡ location segments.now) }
{
    let mut to = String::new(alloc);
    for segment in segments {
        append_encoded(&mut to, segment.as_slice())?;
    }
    to.push('/')?;
    Ok(Bytes::from_vec(to.into_bytes()))
}

/// Adds a slash and an encoded segment after a location.
fn append_encoded(to: &mut String, segment: &[u8]) -> Result<(), AllocError>
    ensures { OnOk result
        (string_bytes to.new ≡ string_bytes to.old ++ (slash ∷ flat_map location_byte segment.now)) }
{
    to.push('/')?;
    percent_encode(segment, RESERVED).append_to(to)?;
    Ok(())
}
