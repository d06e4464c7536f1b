//! Out of memory: `checks/refuse_growths.py` refuses each growth in turn.
use devices::{Bytes, Output};
use responses::{Persistence, ResponseKind, Slip, Status, render, write_reply};
use std::marker::Brand;

static BUSY: &[u8] = b"reply 1 2 178\n\
      HTTP/1.1 503 Service Unavailable\r\n\
      Date: Fri, 31 Dec 9999 23:59:59 GMT\r\n\
      Content-Type: text/plain\r\n\
      Content-Length: 24\r\n\
      Retry-After: 1\r\n\
      Connection: close\r\n\
      \r\n\
      503 Service Unavailable\n\
      \n";

static LONG: &[u8; 141] =
    b"/a%20b-c_d.e~f/a%20b-c_d.e~f/a%20b-c_d.e~f/a%20b-c_d.e~f/a%20b-c_d.e~f/a%20b-c_d.e~f/a%20b-c_d.e~f/a\
      %20b-c_d.e~f/a%20b-c_d.e~f/a%20b-c_d.e~f/";

static MOVED: &[u8] = b"reply 0 0 292\n\
      HTTP/1.1 301 Moved Permanently\r\n\
      Date: Sun, 06 Nov 1994 08:49:37 GMT\r\n\
      Content-Type: text/plain\r\n\
      Content-Length: 22\r\n\
      Location: /a%20b-c_d.e~f/a%20b-c_d.e~f/a%20b-c_d.e~f/a%20b-c_d.e~f/a%20b-c_d.e~f/a%20b-c_d.e~f/a%20b\
      -c_d.e~f/a%20b-c_d.e~f/a%20b-c_d.e~f/a%20b-c_d.e~f/\r\n\
      \r\n\
      301 Moved Permanently\n\
      \n";

/// A growth that is refused is answered so; else the reply is right.
#[test]
fn each_growth_refused(rt: HostRuntime) {
    let slip = Slip {
        number: 1,
        conn: 2,
        date: 253_402_300_799,
        head: false,
        link: Persistence::Close,
        what: ResponseKind::<Brand>::Plain {
            status: Status::ServiceUnavailable { retry_after: 1 },
        },
    };
    if let Ok(reply) = render(rt.alloc(), slip) {
        let mut capacity = [0; 256];
        let mut output = Output::new(capacity.as_mut_slice());
        assert!(rt; write_reply(&mut output, &reply).is_ok());
        assert!(rt; capacity.starts_with(BUSY));
    }
}

/// The same where the head outgrows its buffer.
#[test]
fn long_head(rt: HostRuntime) {
    let Ok(location) = Vec::from_slice(rt.alloc(), LONG) else {
        return;
    };
    let slip = Slip {
        number: 0,
        conn: 0,
        date: 784_111_777,
        head: false,
        link: Persistence::Silent,
        what: ResponseKind::<Brand>::Moved {
            location: Bytes::from_vec(location),
        },
    };
    if let Ok(reply) = render(rt.alloc(), slip) {
        let mut capacity = [0; 512];
        let mut output = Output::new(capacity.as_mut_slice());
        assert!(rt; write_reply(&mut output, &reply).is_ok());
        assert!(rt; capacity.starts_with(MOVED));
    }
}
