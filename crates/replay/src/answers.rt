//! What a message is answered with, by its outcome.

ghost use Rattle.std.specs.Prelude.{◌≡◌, ◌<◌, ◌≤◌, ◌-◌, ◌+◌, ◌^◌, true, length, ◌&&◌};
ghost use Rattle.paths.specs.Reference.{file_of};
ghost use Rattle.reference.specs.Reference.{fault_status, outcome_answer, persistence_of};
ghost use Rattle.replay.specs.Backs.{response_of, only_head, has_location, is_answer};
ghost use Rattle.paths.specs.Resolution.{IsOutcome};
ghost use Rattle.page_cache.specs.Reference.{media_of};

use crate::lookup::is_unmodified;
use crate::pending::PendingAnswer;
use http_requests::{HttpVersion, Meaning, MessageFault};
use page_cache::MediaType;
use paths::{Outcome, Snapshot, Tree};
use responses::{Persistence, ResponseKind, Status};

/// The status of a message that breaks a rule.
pub(crate) fn fault_status(fault: MessageFault) -> Status
    ensures { result ≡ fault_status fault }
{
    match fault {
        MessageFault::Coding => Status::NotImplemented,
        MessageFault::BodySize => Status::ContentTooLarge,
        MessageFault::TooLong | MessageFault::Block | MessageFault::Host | MessageFault::Length =>
            Status::BadRequest,
    }
}

/// What HEAD is answered for a file that was last changed at `mtime`, in seconds since 1970-01-01.
pub(crate) fn known_file<F: Tree>(snapshot: &Snapshot, file: usize, mtime: u64) -> ResponseKind<F>
    requires { file < length snapshot.now }
    ensures { result ≡ ResponseKind.Known (media_of (file_of snapshot.now file).name)
        (length (file_of snapshot.now file).bytes) mtime }
{
    ResponseKind::Known {
        media: MediaType::of_name(snapshot.name(file)),
        len: snapshot.bytes(file).len() as u64,
        mtime,
    }
}

/// What a file is answered with.
fn file_answer<F: Tree>(
    snapshot: &Snapshot,
    head: bool,
    since: Option<u64>,
    file: usize,
) -> PendingAnswer<F>
    requires snapshot { snapshot.now ≡ F.files }
    requires file { file < length snapshot.now }
    ensures response_of { response_of result
        ≡ outcome_answer F.files head since (Outcome.File file) }
    ensures answer { is_answer F.files result ≡ true }
    ensures can { (only_head head (response_of result)
        && has_location (response_of result)) ≡ true }
{
    let mtime = snapshot.mtime(file);
    if is_unmodified(since, mtime) {
        return PendingAnswer::Ready(ResponseKind::Unmodified { mtime });
    }
    if head {
        return PendingAnswer::Ready(known_file(snapshot, file, mtime));
    }
    PendingAnswer::Page { file, mtime }
}

/// What an outcome is answered with.
pub(crate) fn outcome_answer<F: Tree>(
    snapshot: &Snapshot,
    head: bool,
    since: Option<u64>,
    outcome: Outcome,
) -> PendingAnswer<F>
    requires snapshot { snapshot.now ≡ F.files }
    requires is { IsOutcome F.files outcome }
    ensures response_of { response_of result ≡ outcome_answer F.files head since outcome }
    ensures answer { is_answer F.files result ≡ true }
    ensures can { (only_head head (response_of result)
        && has_location (response_of result)) ≡ true }
{
    let status = match outcome {
        Outcome::File(file) => return file_answer(snapshot, head, since, file),
        Outcome::Move(location) => return PendingAnswer::Ready(ResponseKind::Moved { location }),
        Outcome::Missing => Status::NotFound,
        Outcome::BadTarget => Status::BadRequest,
        Outcome::NotAllowed => Status::MethodNotAllowed,
        Outcome::NotKnown => Status::NotImplemented,
    };
    PendingAnswer::Ready(ResponseKind::Plain { status })
}

/// What the reply says of its connection.
pub(crate) fn persistence_of(what: &Meaning) -> Persistence
    ensures { result ≡ persistence_of what.now }
{
    if what.closes() {
        return Persistence::Close;
    }
    match what {
        Meaning::Request {
            version: HttpVersion::Http10,
            ..
        } => Persistence::KeepAlive,
        _ => Persistence::Silent,
    }
}
