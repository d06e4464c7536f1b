//! Out of memory: `checks/refuse_growths.py` refuses each growth in turn.
ghost use Rattle.std.specs.Prelude.{◌<◌, ◌≤◌, length};

use http_requests::{Cutter, HttpVersion, Meaning, Message};
use std::alloc::Global;
use std::process::Abort;

static TEXT: &str = "GET /a HTTP/1.1\r\n\
     Host: a\r\n\
     \r\n\
     POST /b HTTP/1.1\r\n\
     Host: a\r\n\
     Content-Length: 1\r\n\
     \r\n\
     xGET /c HTTP/1.1\r\n\
     Host: a\r\n\
     If-Modified-Since: Sun, 06 Nov 1994 08:49:37 GMT\r\n\
     Connection: close\r\n\
     \r\n";

/// A request, apart from its version, which is 1.1.
#[derive(Clone, Copy)]
pub struct Want {
    pub end: u64,
    pub method: &'static str,
    pub target: &'static str,
    pub closes: bool,
    pub modified_since: Option<u64>,
}

static MESSAGES: [Want; 3] = [
    Want {
        end: 28,
        method: "GET",
        target: "/a",
        closes: false,
        modified_since: None,
    },
    Want {
        end: 77,
        method: "POST",
        target: "/b",
        closes: false,
        modified_since: None,
    },
    Want {
        end: 174,
        method: "GET",
        target: "/c",
        closes: true,
        modified_since: Some(784_111_777),
    },
];

/// Whether this is such a message.
pub fn is_like(message: &Message, want: &Want) -> bool {
    match &message.what {
        Meaning::Request {
            method,
            target,
            version,
            closes,
            modified_since,
        } => {
            message.end == want.end
                && method.as_slice() == want.method.as_bytes()
                && target.as_slice() == want.target.as_bytes()
                && *version == HttpVersion::Http11
                && *closes == want.closes
                && *modified_since == want.modified_since
        }
        Meaning::Bad(_) => false,
    }
}

/// Feeds a text in pieces of this size: whether a growth was refused, and whether each piece after it was refused too
/// and added nothing.
fn feed(alloc: Global, text: &[u8], size: usize, out: &mut Vec<Message>) -> (bool, bool)
    requires some { 0 < size }
    requires capacity { length text.now ≤ 1_073_741_824 }
{
    let mut cutter = Cutter::new(alloc);
    let mut failed = false;
    let mut stays = true;
    let mut at: usize = 0;
    while at < text.len() {
        let end = at + size.min(text.len() - at);
        let had = out.len();
        let refused = cutter.feed(&text[at..end], out).is_err();
        stays = stays && (!failed || (refused && out.len() == had));
        failed = refused;
        at = end;
    }
    (failed, stays)
}

/// They are the first of the right messages, or all.
fn check_messages(rt: &impl Abort, messages: &[Message], all: bool) {
    assert!(rt; !all || messages.len() == MESSAGES.len());
    for (message, want) in messages.iter().zip(&MESSAGES) {
        assert!(rt; is_like(message, want), "{message:?}");
    }
}

/// A growth that is refused leaves the first of the right messages, and each later piece is refused and adds nothing.
/// Where none is refused, all are there.
#[test]
fn each_growth_refused(rt: HostRuntime) {
    let text = TEXT.as_bytes();
    assert!(rt; text.len() <= 1000);
    for size in [5, 1000] {
        let mut out = Vec::new(rt.alloc());
        let (failed, stays) = feed(rt.alloc(), text, size, &mut out);
        assert!(rt; stays);
        check_messages(&rt, &out, !failed);
    }
}
