//! How the messages spread over the connections.

ghost use Rattle.std.specs.Prelude.{◌≡◌, ◌+◌, ◌<◌, ◌^◌, [], ◌∷◌};
ghost use Rattle.inspection.specs.Figures.{share_over};
ghost use Rattle.inspection.specs.Running.{rest_after_close, rest_unfinished, with_bytes, with_tail, joined, CanAddAll};

use crate::inspection::Share;
use crate::tails::Tail;

/// The shares of connections.
#[derive(Clone, Copy)]
pub struct Shares {
    /// The bytes that came.
    pub received: Share,
    /// Those after a closing message.
    pub after_close: Share,
    /// Those after the last message of the connections that no message closed.
    pub unfinished: Share,
}

/// Nothing on no connection.
const NOTHING: Share = Share {
    bytes: 0,
    connections: 0,
};

/// The shares of no connection.
pub(crate) const NO_SHARES: Shares = Shares {
    received: NOTHING,
    after_close: NOTHING,
    unfinished: NOTHING,
};

impl Share {
    /// A share with n bytes of one more connection.
    fn with(self, bytes: u64) -> Share
        requires bytes { self.bytes + bytes < 2 ^ 64 }
        requires connections { self.connections + 1 < 2 ^ 64 }
        ensures { result ≡ with_bytes self bytes }
    {
        Share {
            bytes: self.bytes + bytes,
            connections: if bytes > 0 {
                self.connections + 1
            } else {
                self.connections
            },
        }
    }
}

impl Shares {
    /// The shares with those of one more connection.
    pub(crate) fn with(self, tail: Tail) -> Shares
        requires { CanAddAll self (tail ∷ []) }
        ensures { result ≡ with_tail self tail }
    {
        Shares {
            received: self.received.with(tail.bytes),
            after_close: self.after_close.with(tail.rest_after_close()),
            unfinished: self.unfinished.with(tail.rest_unfinished()),
        }
    }

    /// The shares with those of further connections.
    pub(crate) fn with_all(self, tails: &[Tail]) -> Shares
        requires { CanAddAll self tails.now }
        ensures received { result.received
            ≡ joined self.received (share_over (λ t. t.bytes) tails.now) }
        ensures after_close { result.after_close
            ≡ joined self.after_close (share_over rest_after_close tails.now) }
        ensures unfinished { result.unfinished
            ≡ joined self.unfinished (share_over rest_unfinished tails.now) }
    {
        let mut shares = self;
        for tail in tails {
            shares = shares.with(*tail);
        }
        shares
    }
}
