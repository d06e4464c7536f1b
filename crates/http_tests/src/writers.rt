//! A writer that takes a byte at a time, and one that fails at one of its writes.
use devices::Output;
use paths::Tree;
use responses::{Persistence, Reply, ResponseKind, Slip, Status, render, write_reply};
use std::alloc::AllocGlobal;
use std::marker::Brand;
use std::process::Abort;
use std::test::Fail;
use test_support::Slow;

static WANT: &[u8; 139] = b"reply 3 12 123\n\
      HTTP/1.1 404 Not Found\r\n\
      Date: Thu, 01 Jan 1970 00:00:00 GMT\r\n\
      Content-Type: text/plain\r\n\
      Content-Length: 14\r\n\
      \r\n\
      404 Not Found\n\
      \n";

/// The writer that fails at this write has taken as many bytes, and has failed once.
fn check_write<F: Tree, R: Abort + AllocGlobal>(rt: &R, reply: &Reply<F>, good: usize) {
    let mut taken = Vec::new(rt.alloc());
    let mut output = Output::new(Slow::new(&mut taken, 1, good));
    let answer = write_reply(&mut output, reply);
    let failures = output.failures();
    let whole = good == WANT.len();
    assert_eq!(rt;
        (answer.is_ok(), failures),
        (whole, if whole { 0 } else { 1 })
    );
    assert!(rt; WANT.starts_with(&taken) && taken.len() == good);
}

/// For each k, the writer that fails at its write k has taken the first k bytes, and has failed once.
#[test]
fn each_write_failing(rt: HostRuntime) -> Result<(), Fail> {
    let slip = Slip {
        number: 3,
        conn: 12,
        date: 0,
        head: false,
        link: Persistence::Silent,
        what: ResponseKind::<Brand>::Plain {
            status: Status::NotFound,
        },
    };
    let reply = render(rt.alloc(), slip)?;
    assert_eq!(rt; (reply.number(), reply.conn()), (3, 12));
    for good in 0..WANT.len() + 1 {
        check_write(&rt, &reply, good);
    }
    Ok(())
}
