//! All that a reply is made of: the slip, and its parts.

ghost use Rattle.std.specs.Prelude.{◌≡◌, slice_get};
ghost use Rattle.responses.specs.Reference.{status_of, status_words, statuses};
ghost use Rattle.responses.specs.declared.slip.ResponseKind.TheVariants.{Plain};

use crate::SharedPage;
use devices::Bytes;
use page_cache::MediaType;
use paths::Tree;

/// What a reply tells of its connection (RFC 9112, section 9.3).
#[derive(Clone, Copy, Debug, PartialEq, Eq)]
pub enum Persistence {
    /// It ends after this reply.
    Close,
    /// It goes on, which a client of HTTP/1.0 has to be told.
    KeepAlive,
    /// It goes on, as HTTP/1.1 does without a word.
    Silent,
}

/// The code of each status that a reply may have, in the order of a report (RFC 9110, section 15).
pub const STATUS_CODES: [u16; 9] = [200, 301, 304, 400, 404, 405, 413, 501, 503];

/// The place of 200 in `STATUS_CODES`.
pub const OK_PLACE: usize = 0;

/// The status of a reply that says no more than its status (RFC 9110, section 15).
#[derive(Clone, Copy, Debug, PartialEq, Eq)]
pub enum Status {
    /// 400.
    BadRequest,
    /// 404.
    NotFound,
    /// 405: the method is known, and not served.
    MethodNotAllowed,
    /// 413.
    ContentTooLarge,
    /// 501.
    NotImplemented,
    /// 503: turned away, with leave to come again after n seconds.
    ServiceUnavailable { retry_after: u64 },
}

impl Status {
    /// The place of the code in `STATUS_CODES`, and the code with its reason.
    fn row(self) -> (usize, &'static [u8])
        ensures place { slice_get statuses result.0 ≡ Some (status_of {X = Unit {0}} (Plain self)) }
        ensures words { result.1.now ≡ status_words (status_of {X = Unit {0}} (Plain self)) }
    {
        match self {
            Status::BadRequest => (3, b"400 Bad Request"),
            Status::NotFound => (4, b"404 Not Found"),
            Status::MethodNotAllowed => (5, b"405 Method Not Allowed"),
            Status::ContentTooLarge => (6, b"413 Content Too Large"),
            Status::NotImplemented => (7, b"501 Not Implemented"),
            Status::ServiceUnavailable { .. } => (8, b"503 Service Unavailable"),
        }
    }
}

/// What a request is answered with; `mtime` is when the file was last changed, in seconds since 1970-01-01. The type
/// names the snapshot of the pages.
#[derive(Drop)]
pub enum ResponseKind<F: Tree> {
    /// 200 with the bytes of a file.
    Page {
        page: SharedPage<F>,
        mtime: u64,
    },
    /// 200 without the bytes, which answers HEAD.
    Known {
        media: MediaType,
        /// How many bytes the file has.
        len: u64,
        mtime: u64,
    },
    /// 304.
    Unmodified {
        mtime: u64,
    },
    /// 301.
    Moved {
        /// Where to: the encoded path of a folder, as `locate` of `paths` answers it.
        location: Bytes,
    },
    /// A status, and nothing else.
    Plain {
        status: Status,
    },
}

impl<F: Tree> ResponseKind<F> {
    /// The place of the code of its status in `STATUS_CODES`, and the code with its reason.
    fn row(&self) -> (usize, &'static [u8])
        ensures place { slice_get statuses result.0 ≡ Some (status_of self.now) }
        ensures words { result.1.now ≡ status_words (status_of self.now) }
    {
        match self {
            ResponseKind::Page { .. } | ResponseKind::Known { .. } => (OK_PLACE, b"200 OK"),
            ResponseKind::Moved { .. } => (1, b"301 Moved Permanently"),
            ResponseKind::Unmodified { .. } => (2, b"304 Not Modified"),
            ResponseKind::Plain { status } => status.row(),
        }
    }

    /// The place of the code of its status in `STATUS_CODES`.
    pub fn status_place(&self) -> usize
        ensures { slice_get statuses result ≡ Some (status_of self.now) }
    {
        self.row().0
    }

    /// The code of its status (RFC 9110, section 15).
    pub fn code(&self) -> u16
        ensures { result ≡ status_of self.now }
    {
        STATUS_CODES[self.status_place()]
    }

    /// Its status and the reason, as `404 Not Found`.
    pub(crate) fn status_words(&self) -> &'static [u8]
        ensures { result.now ≡ status_words (status_of self.now) }
    {
        self.row().1
    }
}

/// All that a reply follows from.
#[derive(Drop)]
pub struct Slip<F: Tree> {
    /// The number of the message that is answered.
    pub number: usize,
    /// The number of its connection.
    pub conn: usize,
    /// The time of the reply, in seconds since 1970-01-01, at most 253,402,300,799.
    pub date: u64,
    /// Whether it answers HEAD, and so has no body (RFC 9110, section 9.3.2).
    pub head: bool,
    pub link: Persistence,
    pub what: ResponseKind<F>,
}
