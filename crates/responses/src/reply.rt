//! A reply, rendered from its slip.

ghost use Rattle.std.specs.Prelude.{◌≡◌, ◌≤◌, ◌+◌, ◌<◌, ◌^◌, ◌++◌, length, IfOk, OnOk};
ghost use Rattle.paths.specs.Snapshots.{max_time};
ghost use Rattle.responses.specs.Reference.{reply_text, head_text, status_of, status_text, content_of};
ghost use Rattle.responses.specs.Replies.{OnlyHead, HasLocation, held_body, note_of, body_text};
ghost use Rattle.responses.specs.Messages.{IsReply};

use crate::dates::Dates;
use crate::rendering::push_head;
use crate::{ResponseKind, SharedPage, Slip};
use paths::Tree;
use std::alloc::{AllocError, Global};
use std::marker::Model;

/// Room for most heads, in bytes.
const HEAD_CAPACITY: usize = 256;

/// The reply to a message. It shares the page of the file that it gives.
///
/// Contracts see the number of the message, the number of its connection, and the whole text.
#[derive(Drop)]
pub struct Reply<F: Tree> {
    number: usize,
    conn: usize,
    /// The head, and a body that is no file's.
    front: Vec<u8>,
    /// The page whose body follows.
    page: Option<SharedPage<F>>,
}

impl<F: Tree> Model for Reply<F> {
    ghost use Rattle.std.specs.Prelude.{ℕ, List, ◌++◌};
    ghost use Rattle.responses.specs.Replies.{held_body};

    ghost Value = { ℕ × ℕ × List ℕ };

    ghost view = { λ r. (r.number, r.conn, r.front.items ++ held_body F.files r.page) };
}

impl<F: Tree> Reply<F> {
    /// The number of the message that is answered.
    pub fn number(&self) -> usize
        ensures { result ≡ self.now.0 }
    {
        self.number
    }

    /// The number of its connection.
    pub fn conn(&self) -> usize
        ensures { result ≡ self.now.1 }
    {
        self.conn
    }

    /// The text, in two parts.
    pub(crate) fn parts(&self) -> (&[u8], &[u8])
        ensures { self.now.2 ≡ result.0.now ++ result.1.now }
    {
        match &self.page {
            Some(page) => (&self.front, page.body()),
            None => (&self.front, &[]),
        }
    }
}

/// The head of a reply, with the empty line that ends it. An `Err` is out of memory.
fn render_head<F: Tree>(alloc: Global, slip: &Slip<F>) -> Result<Vec<u8>, AllocError>
    requires { slip.now.date ≤ max_time }
    ensures { IfOk result (λ head. head.items ≡ head_text F.files slip.now) }
{
    let mut head = Vec::with_capacity(alloc, HEAD_CAPACITY)?;
    push_head(&mut head, &mut Dates::of(slip.date), slip)?;
    Ok(head)
}

/// Adds the status as a line.
fn push_status<F: Tree>(front: &mut Vec<u8>, what: &ResponseKind<F>) -> Result<(), AllocError>
    ensures { OnOk result (front.new.items ≡ front.old.items ++ status_text (status_of what.now)) }
{
    front.extend_from_slice(what.status_words())?;
    front.extend_from_slice(b"\n")?;
    Ok(())
}

/// Adds the body, where it is no file's.
fn push_note<F: Tree>(front: &mut Vec<u8>, what: &ResponseKind<F>) -> Result<(), AllocError>
    ensures { OnOk result (front.new.items ≡ front.old.items ++ note_of what.now) }
{
    match what {
        ResponseKind::Page { .. } | ResponseKind::Known { .. } | ResponseKind::Unmodified { .. } =>
            Ok(()),
        ResponseKind::Moved { .. } => push_status(front, what),
        ResponseKind::Plain { .. } => push_status(front, what),
    }
}

/// The page whose bytes are the body.
fn shared_page<F: Tree>(what: ResponseKind<F>) -> Option<SharedPage<F>>
    ensures parts { content_of F.files what ≡ note_of what ++ held_body F.files result }
    ensures size { length (content_of F.files what) < 2 ^ 64 }
{
    match what {
        ResponseKind::Page {
            page,
            mtime: _mtime,
        } => {
            let _size = page.body().len();
            Some(page)
        }
        ResponseKind::Moved {
            location: _location,
        } => None,
        ResponseKind::Known { .. } | ResponseKind::Unmodified { .. } | ResponseKind::Plain { .. } =>
            None,
    }
}

/// The reply of a slip. The page is shared, and its bytes are not copied. An `Err` is out of memory.
///
/// A client that reads it from a connection finds this status and this body, whatever follows (RFC 9112, section 6.3).
pub fn render<F: Tree>(alloc: Global, slip: Slip<F>) -> Result<Reply<F>, AllocError>
    requires date { slip.date ≤ max_time }
    // The length alone is known only where HEAD is answered.
    requires known { OnlyHead slip.head slip.what }
    requires location { HasLocation slip.what }
    ensures text { IfOk result (λ r. r ≡ (slip.number, slip.conn, reply_text F.files slip)) }
    ensures reply { IfOk result
        (λ r. IsReply slip.head (status_of slip.what) (body_text F.files slip) r.2) }
{
    let mut front = render_head(alloc, &slip)?;
    if slip.head {
        return Ok(Reply {
            number: slip.number,
            conn: slip.conn,
            front,
            page: None,
        });
    }
    push_note(&mut front, &slip.what)?;
    let page = shared_page(slip.what);
    Ok(Reply {
        number: slip.number,
        conn: slip.conn,
        front,
        page,
    })
}
