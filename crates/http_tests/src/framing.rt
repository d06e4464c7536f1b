//! Calls that cut texts into messages, beside the rows of `tests/framing.toml`.
use crate::request_growths::{Want, is_like};
use http_requests::{
    Bytes, Cutter, Meaning, Message, MessageFault, PieceEnd, count_messages, cut_alone, cut_pieces,
};
use std::process::Abort;
use std::test::Fail;
use test_support::A;

/// The request `A`, which ends there.
fn asked(end: u64) -> Want {
    Want {
        end,
        method: "GET",
        target: "/a.txt",
        closes: false,
        modified_since: None,
    }
}

/// Pieces that are cut by themselves: how many messages end in each, and how the text stands after it.
static ALONE: [(&str, usize, PieceEnd); 9] = [
    ("", 0, PieceEnd::Between),
    ("G / HTTP/1.1\nHost:\n\n", 1, PieceEnd::Between),
    (
        "G / HTTP/1.1\nHost:\n\nG / HTTP/1.1\nHost:\n\n",
        2,
        PieceEnd::Between,
    ),
    ("G / HTTP/1.1\nHost:\n\nG", 1, PieceEnd::Unfinished),
    ("G / HTTP/1.1\nHost:\n", 0, PieceEnd::Unfinished),
    (
        "P / HTTP/1.1\nHost:\nContent-Length: 2\n\na",
        0,
        PieceEnd::Unfinished,
    ),
    (
        "P / HTTP/1.1\nHost:\nContent-Length: 2\n\nab",
        1,
        PieceEnd::Between,
    ),
    (
        "G / HTTP/1.1\nHost:\nConnection: close\n\nG",
        1,
        PieceEnd::Closed,
    ),
    ("G / HTTP/1.1\n\n", 1, PieceEnd::Closed),
];

/// Each message is a request of 20 bytes.
fn check_ends(rt: &impl Abort, messages: &[Message]) {
    let mut end: u64 = 0;
    for message in messages {
        end = end.saturating_add(20);
        assert_eq!(rt; message.end, end);
        assert!(rt; matches!(message.what, Meaning::Request { .. }));
    }
}

/// The most requests that one piece can have are cut: 3,276 of 20 bytes.
#[test]
fn most_messages_of_a_piece(rt: HostRuntime) -> Result<(), Fail> {
    let text = "G / HTTP/1.1\nHost:\n\n".repeat(rt.alloc(), 3_276)?;
    let out = cut_pieces(rt.alloc(), &[text.as_bytes()])?;
    assert_eq!(rt;
        (out.len(), count_messages(text.as_bytes())),
        (3_276, 3_276)
    );
    check_ends(&rt, &out);
    Ok(())
}

#[test]
fn cut_pieces_of_several_sizes(rt: HostRuntime) -> Result<(), Fail> {
    let pieces = [
        b"\r".as_slice(),
        b"\nGET /a.txt HT",
        b"",
        b"TP/1.1\r\nHost: a\r\n\r\n\n",
    ];
    let out = cut_pieces(rt.alloc(), &pieces)?;
    assert!(rt; out.len() == 1 && is_like(&out[0], &asked(34)), "{out:?}");
    Ok(())
}

/// Where it can be known how a piece leaves the text, it is.
#[test]
fn pieces_cut_by_themselves(rt: HostRuntime) -> Result<(), Fail> {
    for (text, count, end) in &ALONE {
        assert!(rt; text.len() <= 100);
        let mut out = Vec::new(rt.alloc());
        let ends = cut_alone(rt.alloc(), text.as_bytes(), &mut out)?;
        assert_eq!(rt; (out.len(), ends), (*count, *end), "{text}");
    }
    Ok(())
}

#[test]
fn bytes_come_back(rt: HostRuntime) -> Result<(), Fail> {
    let bytes = Bytes::from_vec(Bytes::copy(rt.alloc(), b"GET")?.into_vec());
    assert_eq!(rt; bytes.as_slice(), b"GET".as_slice());
    for (other, same) in [(b"GET", true), (b"GEt", false)] {
        assert_eq!(rt; bytes == Bytes::copy(rt.alloc(), other)?, same);
    }
    Ok(())
}

/// The messages that are there already stay in front.
#[test]
fn messages_are_added(rt: HostRuntime) -> Result<(), Fail> {
    let mut out = Vec::new(rt.alloc());
    out.push(Message {
        end: 7,
        what: Meaning::Bad(MessageFault::Host),
    })?;
    Cutter::new(rt.alloc()).feed(A.as_bytes(), &mut out)?;
    assert!(rt; out.len() == 2 && is_like(&out[1], &asked(32)));
    let text = format!(in rt.alloc(); "{out:?}")?;
    assert!(rt;
        text.as_str()
            .contains("Message { end: 7, what: Bad(Host) }")
    );
    Ok(())
}
