//! Counting records, messages, methods, versions and faults.

ghost use Rattle.std.specs.Prelude.{◌≡◌, ◌+◌, ◌-◌, ◌<◌, ◌^◌, ◌++◌, List, length, map};
ghost use Rattle.http_requests.specs.declared.messages.Meaning.{Meaning as AMeaning};
ghost use Rattle.inspection.specs.Figures.{messages_by_kind};
ghost use Rattle.inspection.specs.Running.{FewRecords, FewMethods, FewVersions, FewFaults, FewMessages, with_piece};
ghost use Rattle.inspection.specs.Running.{with_end, with_tier, with_method, with_version, with_fault, with_message};

use crate::counts::{FaultCounts, MessageCounts, MethodCounts, RecordCounts, VersionCounts};
use http_requests::{HttpVersion, Meaning, Message, MessageFault};

impl RecordCounts {
    /// Counts one more piece.
    pub(crate) fn note_piece(&mut self)
        requires { FewRecords (2 ^ 64 - 1) self.old }
        ensures { self.new ≡ with_piece self.old }
    {
        self.all += 1;
        self.pieces += 1;
    }

    /// Counts one more end.
    pub(crate) fn note_end(&mut self)
        requires { FewRecords (2 ^ 64 - 1) self.old }
        ensures { self.new ≡ with_end self.old }
    {
        self.all += 1;
        self.ends += 1;
    }

    /// Counts one more tier.
    pub(crate) fn note_tier(&mut self)
        requires { FewRecords (2 ^ 64 - 1) self.old }
        ensures { self.new ≡ with_tier self.old }
    {
        self.all += 1;
        self.tiers += 1;
    }
}

impl MethodCounts {
    /// Counts one more request by its method.
    fn note(&mut self, method: &[u8])
        requires { FewMethods (2 ^ 64 - 1) self.old }
        ensures { self.new ≡ with_method self.old method.now }
    {
        if method == b"GET".as_slice() {
            self.get += 1;
        } else if method == b"HEAD".as_slice() {
            self.head += 1;
        } else {
            self.other += 1;
        }
    }
}

impl VersionCounts {
    /// Counts one more request by its version.
    fn note(&mut self, version: HttpVersion)
        requires { FewVersions (2 ^ 64 - 1) self.old }
        ensures { self.new ≡ with_version self.old version }
    {
        match version {
            HttpVersion::Http10 => self.http10 += 1,
            HttpVersion::Http11 => self.http11 += 1,
        }
    }
}

impl FaultCounts {
    /// Counts one more message by its fault.
    fn note(&mut self, fault: MessageFault)
        requires { FewFaults (2 ^ 64 - 1) self.old }
        ensures { self.new ≡ with_fault self.old fault }
    {
        match fault {
            MessageFault::TooLong => self.too_long += 1,
            MessageFault::Block => self.block += 1,
            MessageFault::Host => self.host += 1,
            MessageFault::Coding => self.coding += 1,
            MessageFault::Length => self.length += 1,
            MessageFault::BodySize => self.body_size += 1,
        }
    }
}

impl MessageCounts {
    /// Counts one more message.
    fn note(&mut self, what: &Meaning)
        requires { FewMessages (2 ^ 64 - 1) self.old }
        ensures { self.new ≡ with_message self.old what.now }
    {
        self.all += 1;
        match what {
            Meaning::Request {
                method,
                version,
                ..
            } => {
                self.requests += 1;
                self.methods.note(method.as_slice());
                self.versions.note(*version);
            }
            Meaning::Bad(fault) => self.faults.note(*fault),
        }
    }

    /// Counts these messages.
    pub(crate) fn note_all(&mut self, messages: &[Message])
        requires { (whats : List AMeaning) × (self.old ≡ messages_by_kind whats)
            × (length whats + length messages.now < 2 ^ 64) }
        ensures { (whats : List AMeaning) → self.old ≡ messages_by_kind whats
            → self.new ≡ messages_by_kind (whats ++ map (λ m. m.what) messages.now) }
    {
        for message in messages {
            self.note(&message.what);
        }
    }
}
