//! The fields that an answer has of its own, in their order.

ghost use Rattle.std.specs.Prelude.{◌≤◌};
ghost use Rattle.paths.specs.Snapshots.{max_time};
ghost use Rattle.responses.specs.Reference.{content_fields, described, changed, own_fields};
ghost use Rattle.responses.specs.Reference.{connection_fields, status_of};
ghost use Rattle.responses.specs.Replies.{AddsFields};

use crate::dates::DateText;
use crate::head::{push_date, push_field, push_number};
use crate::{Persistence, ResponseKind, Status};
use paths::Tree;
use std::alloc::AllocError;

/// Adds Content-Type and Content-Length of these values.
fn push_content(head: &mut Vec<u8>, media: &[u8], len: u64) -> Result<(), AllocError>
    ensures { AddsFields head.old.items head.new.items result (content_fields media.now len) }
{
    push_field(head, b"Content-Type", media)?;
    push_number(head, b"Content-Length", len)
}

/// Adds Content-Type and Content-Length of a content that is the status as a line.
fn push_described<F: Tree>(head: &mut Vec<u8>, what: &ResponseKind<F>) -> Result<(), AllocError>
    ensures { AddsFields head.old.items head.new.items result (described (status_of what.now)) }
{
    let len = what.status_words().len() as u64 + 1;
    push_content(head, b"text/plain", len)
}

/// Adds Last-Modified, which is never later than the date of the reply (RFC 9110, 8.8.2.1).
fn push_changed(
    head: &mut Vec<u8>,
    kept: &mut DateText,
    date: u64,
    mtime: u64,
) -> Result<(), AllocError>
    requires { date ≤ max_time }
    ensures { AddsFields head.old.items head.new.items result (changed date mtime) }
{
    push_date(head, kept, b"Last-Modified", date.min(mtime))
}

/// Adds the fields that an answer has of its own.
pub(crate) fn push_own<F: Tree>(
    head: &mut Vec<u8>,
    kept: &mut DateText,
    date: u64,
    what: &ResponseKind<F>,
) -> Result<(), AllocError>
    requires { date ≤ max_time }
    ensures { AddsFields head.old.items head.new.items result (own_fields F.files date what.now) }
{
    match what {
        ResponseKind::Page { page, mtime } => {
            head.extend_from_slice(page.fields())?;
            push_changed(head, kept, date, *mtime)
        }
        ResponseKind::Known { media, len, mtime } => {
            push_content(head, media.text().as_bytes(), *len)?;
            push_changed(head, kept, date, *mtime)
        }
        ResponseKind::Unmodified { mtime } => push_changed(head, kept, date, *mtime),
        ResponseKind::Moved { location } => {
            push_described(head, what)?;
            push_field(head, b"Location", location.as_slice())
        }
        ResponseKind::Plain { status } => {
            push_described(head, what)?;
            match status {
                Status::MethodNotAllowed => push_field(head, b"Allow", b"GET, HEAD"),
                Status::ServiceUnavailable { retry_after } => push_number(
                    head,
                    b"Retry-After",
                    *retry_after,
                ),
                _ => Ok(()),
            }
        }
    }
}

/// Adds Connection, where there is something to tell.
pub(crate) fn push_connection(head: &mut Vec<u8>, link: Persistence) -> Result<(), AllocError>
    ensures { AddsFields head.old.items head.new.items result (connection_fields link) }
{
    match link {
        Persistence::Close => push_field(head, b"Connection", b"close"),
        Persistence::KeepAlive => push_field(head, b"Connection", b"keep-alive"),
        Persistence::Silent => Ok(()),
    }
}
