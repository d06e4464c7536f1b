//! Files that break a rule: nothing of them is written, and the next file is judged as if they hadn't been there.
use crate::writing::{ALL, Entry, files_of, write_allowed};
use devices::Output;
use paths::File;
use snapshots::WriteFault;
use std::alloc::Global;
use std::test::Fail;
use test_support::Slow;

/// Files, of which some break rules.
static FILES: [Entry; 22] = [
    ("a", 253_402_300_800, ""),
    ("", 0, ""),
    ("/a", 0, ""),
    ("a/", 0, ""),
    ("a//b", 0, ""),
    (".", 0, ""),
    ("..", 0, ""),
    ("a/../b", 0, ""),
    ("a\0", 0, ""),
    ("a/b/c", 0, "1"),
    ("a/b/c", 0, ""),
    ("a/b", 0, ""),
    ("Z", 0, ""),
    ("a/b/c/d", 0, ""),
    ("a/b/c!", 0, "2"),
    ("a/b/c!d/e", 0, "3"),
    ("a/b/c!d/e/f", 0, ""),
    ("a/b/c/d", 0, ""),
    ("a/b/c!!", 0, ""),
    ("a/b/d", 0, "4"),
    ("a/b/d/e", u64::MAX, ""),
    ("a/b/d/e", 0, ""),
];

/// The rules that those break, in their order.
static RULES: [WriteFault; 18] = [
    WriteFault::Time,
    WriteFault::Name,
    WriteFault::Name,
    WriteFault::Name,
    WriteFault::Name,
    WriteFault::Name,
    WriteFault::Name,
    WriteFault::Name,
    WriteFault::Name,
    WriteFault::Order,
    WriteFault::Order,
    WriteFault::Order,
    WriteFault::Conflict,
    WriteFault::Conflict,
    WriteFault::Conflict,
    WriteFault::Order,
    WriteFault::Time,
    WriteFault::Conflict,
];

static TEXT: &str = "haboob-snapshot 1
file 0 5 1
a/b/c
1
file 0 6 1
a/b/c!
2
file 0 9 1
a/b/c!d/e
3
file 0 5 1
a/b/d
4
end 4
";

/// Whether those rules are broken, and just this text is written.
fn is_as_wanted(alloc: Global, files: &[File]) -> bool {
    let mut taken = Vec::new(alloc);
    let mut output = Output::new(Slow::new(&mut taken, ALL, ALL));
    let refused = match write_allowed(alloc, &mut output, files) {
        Ok(refused) => refused.as_slice() == RULES.as_slice(),
        Err(_) => false,
    };
    drop(output);
    refused && taken.as_slice() == TEXT.as_bytes()
}

#[test]
fn rules_of_files(rt: HostRuntime) -> Result<(), Fail> {
    let files = files_of(rt.alloc(), &FILES)?;
    assert!(rt; is_as_wanted(rt.alloc(), &files));
    Ok(())
}
