//! Folders that are written as snapshots.
use crate::running::{Narrow, is_out_of_memory};
use devices::Output;
use program::{Contents, Fault, FileFault, Folder, Found, Place, Unanswered, run_snapshot};
use std::alloc::{AllocError, AllocGlobal, Global};
use std::process::Abort;
use std::test::Fail;

/// A folder in memory: names, times and bytes. For `full` it can open nothing, and other names can't be read.
#[derive(Drop)]
struct Shelf {
    alloc: Global,
    files: &'static [(&'static str, u64, &'static str)],
}

impl Folder for Shelf {
    ghost answers = { λ shelf name answer. Unit {0} };

    fn read(&self, name: &str) -> Result<Result<Contents, FileFault>, Unanswered> {
        for (own, mtime, bytes) in self.files {
            if *own == name {
                let bytes = Vec::from_slice(self.alloc, bytes.as_bytes())?;
                return Ok(Ok(Contents {
                    mtime: *mtime,
                    bytes,
                }));
            }
        }
        if name == "full" {
            return Err(Unanswered::Descriptors);
        }
        Ok(Err(FileFault::Read))
    }
}

static FILES: [(&str, u64, &str); 4] = [
    ("a.b", 784_111_777, "hi\n"),
    ("a/b", 0, ""),
    ("a0", 253_402_300_800, "late"),
    ("b", 5, "x"),
];

/// What is found: a name, and why it can't be taken where that is known.
type Row = (&'static str, Option<FileFault>);

fn found_of(alloc: Global, rows: &[Row]) -> Result<Vec<Found>, AllocError> {
    let mut found = Vec::new(alloc);
    for (name, fault) in rows {
        let name = String::from_str(alloc, name)?;
        found.push(Found {
            name,
            fault: *fault,
        })?;
    }
    Ok(found)
}

/// Why each was left out, none where it was taken.
type Reasons = &'static [Option<FileFault>];

/// Whether these were left out, or this one couldn't be taken.
fn is_reported(
    ran: &Result<(), Fault>,
    reasons: &[Option<FileFault>],
    want: Result<Reasons, (&str, FileFault)>,
) -> bool {
    match (ran, want) {
        (Ok(()), Ok(wanted)) => reasons == wanted,
        (Err(Fault::Folder(fault)), Err((name, why))) => {
            fault.name.as_slice() == name.as_bytes() && fault.fault == why
        }
        _ => false,
    }
}

/// Writes the snapshot of these, and compares what it answers and what it wrote.
fn check(
    rt: &(impl Abort + AllocGlobal),
    rows: &[Row],
    skip: bool,
    want: Result<Reasons, (&str, FileFault)>,
    text: &str,
) -> Result<(), Fail> {
    let shelf = Shelf {
        alloc: rt.alloc(),
        files: &FILES,
    };
    let found = found_of(rt.alloc(), rows)?;
    let mut reasons = Vec::new(rt.alloc());
    let mut device = Narrow::ample();
    let ran = run_snapshot(
        rt.alloc(),
        &shelf,
        &found,
        skip,
        &mut reasons,
        &mut Output::new(&mut device),
    );
    assert!(rt; is_reported(&ran, &reasons, want));
    assert_eq!(rt; device.text(), text.as_bytes());
    Ok(())
}

const ROWS: [Row; 3] = [("a.b", None), ("a/b", None), ("b", None)];

const TEXT: &str =
    "haboob-snapshot 1\nfile 784111777 3 3\na.b\nhi\n\nfile 0 3 0\na/b\n\nfile 5 1 1\nb\nx\nend 3\n";

/// A link, a file that is too late, and one that can't be read, among others.
const MIXED: [Row; 6] = [
    ("a.b", None),
    ("a\nb", Some(FileFault::Link)),
    ("a/b", None),
    ("a0", None),
    ("a", None),
    ("b", None),
];

static NONE: [Option<FileFault>; 3] = [None, None, None];

static SOME: [Option<FileFault>; 6] = [
    None,
    Some(FileFault::Link),
    None,
    Some(FileFault::Time),
    Some(FileFault::Read),
    None,
];

const ONE: &str = "haboob-snapshot 1\nfile 784111777 3 3\na.b\nhi\n\n";

const TWO: &str = "haboob-snapshot 1\nfile 784111777 3 3\na.b\nhi\n\nfile 0 3 0\na/b\n\n";

#[test]
fn taken(rt: HostRuntime) -> Result<(), Fail> {
    let none: [Row; 0] = [];
    for (rows, skip, reasons, text) in [
        (ROWS.as_slice(), false, NONE.as_slice(), TEXT),
        (ROWS.as_slice(), true, NONE.as_slice(), TEXT),
        (
            none.as_slice(),
            false,
            &NONE[..0],
            "haboob-snapshot 1\nend 0\n",
        ),
        (MIXED.as_slice(), true, SOME.as_slice(), TEXT),
    ] {
        check(&rt, rows, skip, Ok(reasons), text)?;
    }
    Ok(())
}

/// What stands before the first that can't be taken stands.
#[test]
fn refused(rt: HostRuntime) -> Result<(), Fail> {
    let late: [Row; 3] = [("a.b", None), ("a/b", None), ("a0", None)];
    let unread: [Row; 2] = [("a.b", None), ("none", None)];
    let twice: [Row; 2] = [("a.b", None), ("a.b", None)];
    for (rows, name, fault, text) in [
        (MIXED.as_slice(), "a?b", FileFault::Link, ONE),
        (late.as_slice(), "a0", FileFault::Time, TWO),
        (unread.as_slice(), "none", FileFault::Read, ONE),
        (twice.as_slice(), "a.b", FileFault::Order, ONE),
    ] {
        check(&rt, rows, false, Err((name, fault)), text)?;
    }
    Ok(())
}

/// Where too many files are open, none is left out for it: what came before stands, without a last line.
#[test]
fn too_many_open(rt: HostRuntime) -> Result<(), Fail> {
    let shelf = Shelf {
        alloc: rt.alloc(),
        files: &FILES,
    };
    let found = found_of(rt.alloc(), &[("a.b", None), ("full", None), ("none", None)])?;
    let mut reasons = Vec::new(rt.alloc());
    for skip in [false, true] {
        let mut device = Narrow::ample();
        let mut output = Output::new(&mut device);
        let ran = run_snapshot(rt.alloc(), &shelf, &found, skip, &mut reasons, &mut output);
        assert!(rt; matches!(ran, Err(Fault::Open(Place::Folder))));
        assert_eq!(rt; reasons.as_slice(), &NONE[..1]);
        assert_eq!(rt; device.text(), ONE.as_bytes());
    }
    Ok(())
}

/// Names with characters that a line doesn't show, and with those beside them that it shows, by the categories of
/// UnicodeData.txt: controls, format characters, ends of lines and paragraphs.
static HIDDEN: [(&str, &str); 12] = [
    ("\u{1}\u{1b}\u{1f} a~", "??? a~"),
    ("\u{7f}\u{80}\u{85}\u{9f}\u{a0}", "????\u{a0}"),
    ("\u{ac}\u{ad}\u{ae}", "\u{ac}?\u{ae}"),
    ("\u{61b}\u{61c}\u{61d}", "\u{61b}?\u{61d}"),
    ("\u{180d}\u{180e}\u{180f}", "\u{180d}?\u{180f}"),
    ("\u{200a}\u{200b}\u{200f}\u{2010}", "\u{200a}??\u{2010}"),
    (
        "\u{2027}\u{2028}\u{2029}\u{202a}\u{202e}\u{202f}",
        "\u{2027}????\u{202f}",
    ),
    (
        "\u{205f}\u{2060}\u{2064}\u{2065}\u{2066}\u{206f}\u{2070}",
        "\u{205f}??\u{2065}??\u{2070}",
    ),
    ("\u{fefe}\u{feff}\u{ff00}", "\u{fefe}?\u{ff00}"),
    ("\u{fff8}\u{fff9}\u{fffb}\u{fffc}", "\u{fff8}??\u{fffc}"),
    (
        "\u{e0000}\u{e0001}\u{e0041}\u{e007f}\u{e0080}",
        "\u{e0000}???\u{e0080}",
    ),
    (
        "\u{e9}\u{301}\u{1f600}\u{10ffff}",
        "\u{e9}\u{301}\u{1f600}\u{10ffff}",
    ),
];

#[test]
fn hidden_characters(rt: HostRuntime) -> Result<(), Fail> {
    for (name, shown) in &HIDDEN {
        let row = [(*name, Some(FileFault::Changed))];
        let want = Err((*shown, FileFault::Changed));
        check(&rt, &row, false, want, "haboob-snapshot 1\n")?;
    }
    Ok(())
}

/// Writes with a device that fails after n writes; whether the run came to its end.
fn ends_writing(rt: &(impl Abort + AllocGlobal), good: usize) -> Result<bool, Fail> {
    let shelf = Shelf {
        alloc: rt.alloc(),
        files: &FILES,
    };
    let found = found_of(rt.alloc(), &ROWS)?;
    let mut reasons = Vec::new(rt.alloc());
    let mut device = Narrow::new(8, good);
    let ran = run_snapshot(
        rt.alloc(),
        &shelf,
        &found,
        true,
        &mut reasons,
        &mut Output::new(&mut device),
    );
    assert!(rt; TEXT.as_bytes().starts_with(device.text()));
    assert_eq!(rt; ran.is_ok(), device.text().len() == TEXT.len());
    assert!(rt; matches!(ran, Ok(()) | Err(Fault::Write(Place::Output))));
    Ok(ran.is_ok())
}

#[test]
fn each_write_failing(rt: HostRuntime) -> Result<(), Fail> {
    for good in 0..100usize {
        if ends_writing(&rt, good)? {
            assert!(rt; good > 10);
            return Ok(());
        }
    }
    assert!(rt; false, "the run comes to no end");
    Ok(())
}

/// `checks/refuse_growths.py` refuses each growth in turn: then a prefix stands.
#[test]
fn each_growth_refused(rt: HostRuntime) {
    let Ok(found) = found_of(rt.alloc(), &ROWS) else {
        return;
    };
    let shelf = Shelf {
        alloc: rt.alloc(),
        files: &FILES,
    };
    let mut reasons = Vec::new(rt.alloc());
    let mut device = Narrow::ample();
    let ran = run_snapshot(
        rt.alloc(),
        &shelf,
        &found,
        false,
        &mut reasons,
        &mut Output::new(&mut device),
    );
    match ran {
        Ok(_) => assert_eq!(rt; device.text(), TEXT.as_bytes()),
        Err(fault) => {
            assert!(rt; is_out_of_memory(&fault));
            assert!(rt; TEXT.as_bytes().starts_with(device.text()));
        }
    }
}
