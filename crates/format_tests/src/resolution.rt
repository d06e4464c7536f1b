//! Parts of a resolution by themselves, and words that no request can have; what targets are answered with is told by
//! rows (`tests`).
use paths::{Asked, Outcome, find_plain, inspect, locate, resolve};
use std::test::Fail;
use test_support::snapshot;

static TWO: &str = "haboob-snapshot 1\nfile 0 7 0\na/c.txt\n\nfile 0 5 0\nb.txt\n\nend 2\n";

/// How many parts the path has that is asked for, where its target doesn't end in a slash.
fn parts(asked: &Asked) -> usize {
    match asked {
        Asked::Path {
            segments,
            folder: false,
        } => segments.as_slice().len(),
        _ => 0,
    }
}

/// The two halves of a resolution, each by itself.
#[test]
fn halves(rt: HostRuntime) -> Result<(), Fail> {
    let files = snapshot(rt.alloc(), TWO.as_bytes())?;
    let asked = inspect(rt.alloc(), b"GET", b"/a//c.txt")?;
    assert!(rt; parts(&asked) == 2);
    let outcome = locate(rt.alloc(), &files, &asked)?;
    assert!(rt; matches!(outcome, Outcome::File(0)));
    Ok(())
}

/// An empty target, and an empty method.
#[test]
fn empty_words(rt: HostRuntime) -> Result<(), Fail> {
    let files = snapshot(rt.alloc(), TWO.as_bytes())?;
    let get = resolve(rt.alloc(), &files, b"GET", b"")?;
    let head = resolve(rt.alloc(), &files, b"HEAD", b"")?;
    let none = resolve(rt.alloc(), &files, b"", b"/../")?;
    assert!(rt;
        matches!(
            (get, head, none),
            (Outcome::BadTarget, Outcome::BadTarget, Outcome::NotKnown)
        )
    );
    Ok(())
}

static PLAIN: [(&str, &str, Option<usize>); 6] = [
    ("GET", "/a/c.txt", Some(0)),
    ("HEAD", "/b.txt", Some(1)),
    ("POST", "/b.txt", None),
    ("GET", "/%62.txt", None),
    ("GET", "/b.txt?x", None),
    ("GET", "b.txt", None),
];

/// A target that names a file as it stands is found at once, and no other.
#[test]
fn plain_targets(rt: HostRuntime) -> Result<(), Fail> {
    let files = snapshot(rt.alloc(), TWO.as_bytes())?;
    for (method, target, want) in &PLAIN {
        let found = find_plain(&files, method.as_bytes(), target.as_bytes());
        assert!(rt; found == *want, "{method} {target}");
    }
    Ok(())
}
