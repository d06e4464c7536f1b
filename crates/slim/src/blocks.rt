//! The canonical block of a message.

ghost use Rattle.std.specs.Prelude.{◌≡◌, ◌++◌, IfOk, OnOk};
ghost use Rattle.http_requests.specs.declared.messages.MessageFault.TheVariants.{TooLong};
ghost use Rattle.slim.specs.Blocks.{block_of, connection_line, faulty_block, host_line, request_block};
ghost use Rattle.slim.specs.Blocks.{since_line, version_text};
ghost use Rattle.slim.specs.Targets.{kept_what};

use crate::dates::short_date;
use crate::queries::{Queries, kept_target};
use http_requests::{HttpVersion, Meaning, MessageFault};
use std::alloc::{AllocError, Global};

/// The end of the first line of a request.
fn version_text(version: HttpVersion) -> &'static [u8]
    ensures { result.now ≡ version_text version }
{
    match version {
        HttpVersion::Http10 => b" HTTP/1.0\n",
        HttpVersion::Http11 => b" HTTP/1.1\n",
    }
}

/// The line of Host, where the version asks for one.
fn host_line(version: HttpVersion) -> &'static [u8]
    ensures { result.now ≡ host_line version }
{
    match version {
        HttpVersion::Http10 => b"",
        HttpVersion::Http11 => b"Host:\n",
    }
}

/// The line of Connection, where the version alone would have the connection go on otherwise.
fn connection_line(version: HttpVersion, closes: bool) -> &'static [u8]
    ensures { result.now ≡ connection_line version closes }
{
    match version {
        HttpVersion::Http10 => {
            if closes {
                b""
            } else {
                b"Connection:keep-alive\n"
            }
        }
        HttpVersion::Http11 => { if closes { b"Connection:close\n" } else { b"" } }
    }
}

/// Adds the line of If-Modified-Since, where there is a date.
fn push_since(block: &mut Vec<u8>, since: Option<u64>) -> Result<(), AllocError>
    ensures { OnOk result (block.new.items ≡ block.old.items ++ since_line since) }
{
    let Some(second) = since else {
        return Ok(());
    };
    let Some(text) = short_date(second) else {
        return Ok(());
    };
    block.extend_from_slice(b"If-Modified-Since:")?;
    block.extend_from_slice(&text)?;
    block.extend_from_slice(b"\n")
}

/// The block of a request.
fn request_block(
    alloc: Global,
    method: &[u8],
    target: &[u8],
    version: HttpVersion,
    closes: bool,
    since: Option<u64>,
) -> Result<Vec<u8>, AllocError>
    ensures { IfOk result
        (λ block. block.items ≡ request_block method.now target.now version closes since) }
{
    let mut block = Vec::from_slice(alloc, method)?;
    block.extend_from_slice(b" ")?;
    block.extend_from_slice(target)?;
    block.extend_from_slice(version_text(version))?;
    block.extend_from_slice(host_line(version))?;
    block.extend_from_slice(connection_line(version, closes))?;
    push_since(&mut block, since)?;
    block.extend_from_slice(b"\n")?;
    Ok(block)
}

/// The block of a message that breaks a rule.
fn faulty_block(alloc: Global, fault: MessageFault) -> Result<Vec<u8>, AllocError>
    ensures { IfOk result (λ block. block.items ≡ faulty_block fault) }
{
    match fault {
        MessageFault::TooLong => Vec::from_slice(alloc, &[b'A'; 8_192]),
        MessageFault::Block => Vec::from_slice(alloc, b"A\n\n"),
        MessageFault::Host => Vec::from_slice(alloc, b"A / HTTP/1.1\n\n"),
        MessageFault::Coding => { Vec::from_slice(alloc, b"A / HTTP/1.0\nTransfer-Encoding:\n\n") }
        MessageFault::Length => Vec::from_slice(alloc, b"A / HTTP/1.0\nContent-Length:\n\n"),
        MessageFault::BodySize => {
            Vec::from_slice(alloc, b"A / HTTP/1.0\nContent-Length:65537\n\n")
        }
    }
}

/// The canonical block of a message: the shortest that has its meaning, in lines that end with LF alone.
pub fn canonical_block(alloc: Global, what: &Meaning) -> Result<Vec<u8>, AllocError>
    ensures { IfOk result (λ block. block.items ≡ block_of what.now) }
{
    kept_block(alloc, what, Queries::Kept)
}

/// The canonical block of the meaning with what stays of its target.
pub fn kept_block(alloc: Global, what: &Meaning, queries: Queries) -> Result<Vec<u8>, AllocError>
    ensures { IfOk result (λ block. block.items ≡ block_of (kept_what queries what.now)) }
{
    match what {
        Meaning::Request {
            method,
            target,
            version,
            closes,
            modified_since,
        } => request_block(
            alloc,
            method.as_slice(),
            kept_target(queries, target.as_slice()),
            *version,
            *closes,
            *modified_since,
        ),
        Meaning::Bad(fault) => faulty_block(alloc, *fault),
    }
}
