//! The head of a reply, rendered in a buffer that is kept for the next.

ghost use Rattle.std.specs.Prelude.{◌≡◌, ◌≤◌, [], OnOk, OnErr};
ghost use Rattle.paths.specs.Snapshots.{max_time};
ghost use Rattle.responses.specs.Reference.{head_text};

use crate::Slip;
use crate::dates::Dates;
use crate::fields::{push_connection, push_own};
use crate::head::push_date;
use paths::Tree;
use std::alloc::{AllocError, Global};
use std::marker::Model;

/// Writes the head of a reply into an empty buffer.
pub(crate) fn push_head<F: Tree>(
    head: &mut Vec<u8>,
    dates: &mut Dates,
    slip: &Slip<F>,
) -> Result<(), AllocError>
    requires empty { head.old.items ≡ [] }
    requires date { slip.now.date ≤ max_time }
    ensures { OnOk result (head.new.items ≡ head_text F.files slip.now) }
{
    head.extend_from_slice(b"HTTP/1.1 ")?;
    head.extend_from_slice(slip.what.status_words())?;
    head.extend_from_slice(b"\r\n")?;
    push_date(head, &mut dates.date, b"Date", slip.date)?;
    push_own(head, &mut dates.last_modified, slip.date, &slip.what)?;
    push_connection(head, slip.link)?;
    head.extend_from_slice(b"\r\n")?;
    Ok(())
}

/// Renders the heads of replies, one after another in the same buffer. The text of a date is kept for the next head
/// that has it.
///
/// Contracts see the last head.
#[derive(Drop)]
pub struct HeadRenderer {
    head: Vec<u8>,
    dates: Dates,
}

impl Model for HeadRenderer {
    ghost use Rattle.std.specs.Prelude.{ℕ, List};

    ghost Value = { List ℕ };

    ghost view = { λ h. h.head.items };
}

impl HeadRenderer {
    /// No head yet. It takes no memory.
    pub fn new(alloc: Global) -> HeadRenderer
        ensures { result ≡ [] }
    {
        HeadRenderer {
            head: Vec::new(alloc),
            dates: Dates::of(0),
        }
    }

    /// Renders the head of a reply, with the empty line that ends it, in the place of the last one. An `Err` is out of
    /// memory: then there is no head.
    pub fn render<F: Tree>(&mut self, slip: &Slip<F>) -> Result<(), AllocError>
        requires { slip.now.date ≤ max_time }
        ensures ok { OnOk result (self.new ≡ head_text F.files slip.now) }
        ensures err { OnErr result (self.new ≡ []) }
    {
        self.head.clear();
        let pushed = push_head(&mut self.head, &mut self.dates, slip);
        if pushed.is_err() {
            self.head.clear();
        }
        pushed
    }

    /// The last head.
    pub fn as_slice(&self) -> &[u8]
        ensures { result.now ≡ self.now }
    {
        &self.head
    }
}
