//! The messages of a connection's text.
ghost use Rattle.std.specs.Prelude.{◌≡◌, nat_eq, IfOk};
ghost use Rattle.std.specs.Cmp.Lexicographic.{pointwise, nat_list_eq_equiv};
ghost use Rattle.std.specs.Cmp.{partial_equiv_from_equiv};
ghost use Rattle.http_requests.specs.Reference.{closes};

use std::alloc::{AllocError, Global};
use std::fmt;
use std::marker::Model;

/// Bytes out of a request. A contract sees their list.
#[derive(Drop)]
pub struct Bytes {
    bytes: Vec<u8>,
}

impl Model for Bytes {
    ghost use Rattle.std.specs.Prelude.{ℕ, List};

    ghost Value = { List ℕ };

    ghost view = { λ b. b.bytes.items };
}

impl Bytes {
    /// The bytes of a `Vec`, which takes no memory.
    pub fn from_vec(bytes: Vec<u8>) -> Bytes
        ensures { result ≡ bytes.items }
    {
        Bytes { bytes }
    }

    /// A copy of the bytes.
    pub fn copy(alloc: Global, bytes: &[u8]) -> Result<Bytes, AllocError>
        ensures { IfOk result (λ copy. copy ≡ bytes.now) }
    {
        Ok(Bytes {
            bytes: Vec::from_slice(alloc, bytes)?,
        })
    }

    /// The bytes as a slice.
    pub fn as_slice(&self) -> &[u8]
        ensures { result.now ≡ self.now }
    {
        &self.bytes
    }

    /// The bytes as a `Vec` again, which takes no memory.
    pub fn into_vec(self) -> Vec<u8>
        ensures { result.items ≡ self }
    {
        self.bytes
    }
}

impl PartialEq for Bytes {
    ghost eq = { pointwise nat_eq };

    ghost laws = { partial_equiv_from_equiv nat_list_eq_equiv };

    fn eq(&self, other: &Bytes) -> bool {
        self.as_slice() == other.as_slice()
    }
}

impl Eq for Bytes {
    ghost laws = { nat_list_eq_equiv };
}

impl fmt::Debug for Bytes {
    fn fmt<W: fmt::Write>(&self, f: &mut fmt::Formatter<W>) -> fmt::Result {
        fmt::Debug::fmt(self.as_slice(), f)
    }
}

/// The version of HTTP that a head names (RFC 9112, section 2.3).
#[derive(Clone, Copy, Debug, PartialEq, Eq)]
pub enum HttpVersion {
    Http10,
    Http11,
}

/// Why a message is no request. Each of these ends its connection.
#[derive(Clone, Copy, Debug, PartialEq, Eq)]
pub enum MessageFault {
    /// The first 8,192 bytes of a block hold no end of it.
    TooLong,
    /// The block is no head of a request (RFC 9112, sections 3 and 5), or has more than 64 fields.
    Block,
    /// Host is missing under HTTP/1.1, stands there twice, or has a wrong byte (RFC 9112, section 3.2).
    Host,
    /// There is a Transfer-Encoding (RFC 9112, section 6.1).
    Coding,
    /// Content-Length stands there twice, or is no number (RFC 9112, section 6.3).
    Length,
    /// The body has more than 65,536 bytes.
    BodySize,
}

/// What a message is.
#[derive(Debug, PartialEq, Eq, Drop)]
pub enum Meaning {
    Request {
        /// A token (RFC 9110, section 9.1).
        method: Bytes,
        /// The request target (RFC 9112, section 3.2), as it stands there.
        target: Bytes,
        version: HttpVersion,
        /// Whether the connection ends after the reply (RFC 9112, section 9.3).
        closes: bool,
        /// The seconds since 1970 of If-Modified-Since, where it counts (RFC 9110, section 13.1.3).
        modified_since: Option<u64>,
    },
    Bad(MessageFault),
}

impl Meaning {
    /// Whether nothing is read after a message of this meaning: a fault, or a request that closes (RFC 9112,
    /// section 9.3).
    pub fn closes(&self) -> bool
        ensures { result ≡ closes self.now }
    {
        match self {
            Meaning::Request { closes, .. } => *closes,
            Meaning::Bad(_) => true,
        }
    }
}

/// A message of a connection's text.
#[derive(Debug, PartialEq, Eq, Drop)]
pub struct Message {
    /// The place after its last byte, counted from the start of the text.
    pub end: u64,
    pub what: Meaning,
}
