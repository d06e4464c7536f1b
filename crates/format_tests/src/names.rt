//! Names that are looked up among many, or among those that an index by a hash can't tell apart.
use paths::{Snapshot, find_plain};
use std::alloc::{AllocError, Global};
use std::process::Abort;
use std::test::Fail;
use test_support::snapshot;

/// The text of a snapshot of empty files with these names, which rise.
pub fn text_of(alloc: Global, names: &[&str]) -> Result<String, AllocError> {
    let mut text = String::from_str(alloc, "haboob-snapshot 1\n")?;
    for name in names {
        let file = format!(in alloc; "file 0 {} 0\n{name}\n\n", name.len())?;
        text.push_str(file.as_str())?;
    }
    let end = format!(in alloc; "end {}\n", names.len())?;
    text.push_str(end.as_str())?;
    Ok(text)
}

/// The number of the file of a name.
pub fn found(alloc: Global, files: &Snapshot, name: &str) -> Result<Option<usize>, AllocError> {
    let target = format!(in alloc; "/{name}")?;
    Ok(find_plain(files, b"GET", target.as_bytes()))
}

/// A name is that of this file, or of none.
fn check_name(
    rt: &(impl Abort + AllocGlobal),
    files: &Snapshot,
    name: &str,
    want: Option<usize>,
) -> Result<(), AllocError> {
    let is = found(rt.alloc(), files, name)?;
    assert!(rt; is == want, "{name}");
    Ok(())
}

/// Names of one hash, more than an index tries; the last one is of no file.
static ALIKE: [&str; 24] = [
    "00kcazgk&CNaM6Dq",
    "01b5x93cW=.n-Y|t",
    "0qdrhj0g*Alp-azY",
    "0y4jqb9lFw[q-Vxt",
    "0yatfnqjII2j-668",
    "2ltc3s9n*b`70SI_",
    "5793bac0R!iQXV<n",
    "5wxvrgu503;XX^Zq",
    "8fqqmds1-C=n``d9",
    "bw87spilC$T)RX]K",
    "e3ivp2wr~JXGZtS_",
    "e4rckwh6nmNK:WZ|",
    "et9xda2q+O0@:_Me",
    "ev6ca049!3TMz$D0",
    "hgdlntmapulvB+(+",
    "mkab0tce*+mPMc5g",
    "mlu49186BV&J-fq8",
    "p57vyag0E)BquD=E",
    "psyyjtqtml3a5gL<",
    "rcu66h4i~&.18||_",
    "rr9q4cs6,<)=XCgs",
    "u918tkqzpd!F`|2H",
    "x2wlr1xmurx~HXy3",
    "zpjju69aLlt)s:+a",
];

/// A snapshot of empty files with these names, which rise.
fn named(alloc: Global, names: &[&str]) -> Result<Snapshot, Fail> {
    let text = text_of(alloc, names)?;
    Ok(snapshot(alloc, text.as_bytes())?)
}

/// Each of all names but the last is found at its number, and the last is of no file.
fn check_alike(rt: &(impl Abort + AllocGlobal), files: &Snapshot) -> Result<(), AllocError> {
    for (number, name) in ALIKE.iter().enumerate() {
        check_name(rt, files, name, (number < 23).then_some(number))?;
    }
    Ok(())
}

#[test]
fn names_of_one_hash(rt: HostRuntime) -> Result<(), Fail> {
    let files = named(rt.alloc(), &ALIKE[..23])?;
    check_alike(&rt, &files)?;
    Ok(())
}

/// A snapshot of so many empty files in one folder.
fn many(alloc: Global, count: usize) -> Result<Snapshot, Fail> {
    let mut text = String::from_str(alloc, "haboob-snapshot 1\n")?;
    for n in 0..count {
        write!(text, "file 0 10 0\nd/{n:05}.md\n\n")?;
    }
    write!(text, "end {count}\n")?;
    Ok(snapshot(alloc, text.as_bytes())?)
}

/// The name with this number and this end is that of this file of `many`, or of none.
fn check_number(
    rt: &(impl Abort + AllocGlobal),
    files: &Snapshot,
    number: usize,
    end: &str,
    want: Option<usize>,
) -> Result<(), AllocError> {
    let name = format!(in rt.alloc(); "d/{number:05}{end}")?;
    check_name(rt, files, &name, want)
}

/// Each name of so many files is found at its number, and no name that is a byte longer or shorter, or comes after all.
fn check_many(rt: &(impl Abort + AllocGlobal), count: usize) -> Result<(), Fail> {
    let files = many(rt.alloc(), count)?;
    for n in 0..count {
        for (end, want) in [(".md", Some(n)), (".mdx", None), (".m", None)] {
            check_number(rt, &files, n, end, want)?;
        }
    }
    check_number(rt, &files, count, ".md", None)?;
    Ok(())
}

/// The counts stand on both sides of that from which on there is an index, and of those at which it has more slots.
#[test]
fn each_name_of_many(rt: HostRuntime) -> Result<(), Fail> {
    for count in [0, 1, 2, 3, 4, 5, 8, 9, 500, 4_096, 4_097, 20_000] {
        check_many(&rt, count)?;
    }
    check_many(&rt, 65_536)
}

/// How many bytes the longest name has in `check_longest`.
const LONGEST: usize = 40;

/// A snapshot of so many empty files with short names, and one with a longer.
fn with_a_long_name(alloc: Global, count: usize) -> Result<Snapshot, Fail> {
    let mut text = String::from_str(alloc, "haboob-snapshot 1\n")?;
    for n in 0..count {
        write!(text, "file 0 4 0\nd{n:03}\n\n")?;
    }
    let longest = "m".repeat(alloc, LONGEST)?;
    let files = count.saturating_add(1);
    write!(text, "file 0 {LONGEST} 0\n{longest}\n\nend {files}\n")?;
    Ok(snapshot(alloc, text.as_bytes())?)
}

/// A name of so many `m` is that of this file, or of none, and with an `n` behind them it is of none.
fn check_length(
    rt: &(impl Abort + AllocGlobal),
    files: &Snapshot,
    bytes: usize,
    want: Option<usize>,
) -> Result<(), AllocError> {
    let mut name = "m".repeat(rt.alloc(), bytes)?;
    check_name(rt, files, &name, want)?;
    name.push('n')?;
    check_name(rt, files, &name, None)
}

/// Of so many files with short names and one with a longer, each is found, and none whose name has as many bytes as the
/// longest, fewer or more.
fn check_longest(rt: &(impl Abort + AllocGlobal), count: usize) -> Result<(), Fail> {
    let files = with_a_long_name(rt.alloc(), count)?;
    for n in 0..count {
        let name = format!(in rt.alloc(); "d{n:03}")?;
        check_name(rt, &files, &name, Some(n))?;
    }
    for bytes in [0, 1, 4, 39, 40, 41, 42, 48, 1000, 1023, 1024, 1025, 8000] {
        check_length(rt, &files, bytes, (bytes == LONGEST).then_some(count))?;
    }
    Ok(())
}

/// Names as long as the longest of a snapshot, longer and shorter, among few files and among many.
#[test]
fn names_beside_the_longest(rt: HostRuntime) -> Result<(), Fail> {
    for count in [0, 1, 2, 3, 8, 100] {
        check_longest(&rt, count)?;
    }
    Ok(())
}

/// A snapshot with a name of each length from 5 to 1,024 bytes, in one folder.
fn of_each_length(alloc: Global) -> Result<Snapshot, Fail> {
    let mut text = String::from_str(alloc, "haboob-snapshot 1\n")?;
    for bytes in 3..1_023usize {
        let name = "n".repeat(alloc, bytes)?;
        write!(text, "file 0 {} 0\nd/{name}\n\n", bytes.saturating_add(2))?;
    }
    text.push_str("end 1020\n")?;
    Ok(snapshot(alloc, text.as_bytes())?)
}

/// The name with so many bytes behind its folder is that of this file, or of none.
fn check_behind(
    rt: &(impl Abort + AllocGlobal),
    files: &Snapshot,
    bytes: usize,
    want: Option<usize>,
) -> Result<(), AllocError> {
    let name = "n".repeat(rt.alloc(), bytes)?;
    let target = format!(in rt.alloc(); "d/{name}")?;
    check_name(rt, files, &target, want)
}

/// Each such name is found at its number, and none that is shorter or longer.
#[test]
fn each_length_of_a_name(rt: HostRuntime) -> Result<(), Fail> {
    let files = of_each_length(rt.alloc())?;
    for bytes in 0..1_025usize {
        let is_there = 3 <= bytes && bytes < 1_023;
        check_behind(
            &rt,
            &files,
            bytes,
            is_there.then_some(bytes.saturating_sub(3)),
        )?;
    }
    Ok(())
}
