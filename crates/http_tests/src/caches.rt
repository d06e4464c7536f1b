//! Pages come and go.
ghost use Rattle.std.specs.Prelude.{◌≡◌};

use page_cache::{Keeping, Page, PageCache};
use paths::{Snapshot, Tree};
use std::alloc::Global;
use std::marker::Brand;
use std::process::Abort;
use std::sync::Arc;
use std::test::Fail;
use test_support::snapshot;

/// Three files with pages of 48 bytes.
static THREE: &str =
    "haboob-snapshot 1\nfile 0 5 3\na.txt\nhi\n\nfile 0 5 3\nb.txt\nhi\n\nfile 0 5 3\nc.txt\nhi\n\nend 3\n";

/// What is done to a cache, and what it must answer.
#[derive(Clone, Copy, Debug, PartialEq)]
enum Step {
    /// The page of this file is built and kept.
    Keep(usize, Keeping),
    /// A look at this file finds a page, or none.
    Look(usize, bool),
    /// The page of this file is there, or isn't.
    There(usize, bool),
    /// The pages have n bytes, and there are n.
    Holds(usize, usize),
}

/// Limits of a cache over three files, and what is done to it.
static STEPS: [(usize, &[Step]); 5] = [
    // A page larger than the limit.
    (47, &[Step::Keep(0, Keeping::TooBig), Step::Holds(0, 0)]),
    // Room for one page.
    (
        95,
        &[
            Step::Keep(0, Keeping::Kept),
            Step::Keep(1, Keeping::Kept),
            Step::Look(0, false),
            Step::Look(1, true),
            Step::Holds(48, 1),
        ],
    ),
    // Room for two: the one that was looked at stays.
    (
        96,
        &[
            Step::Keep(0, Keeping::Kept),
            Step::Keep(1, Keeping::Kept),
            Step::Look(0, true),
            Step::Keep(2, Keeping::Kept),
            Step::Look(1, false),
            Step::Look(0, true),
            Step::Holds(96, 2),
        ],
    ),
    // A page that is kept again is counted once, and becomes the most recently used.
    (
        100,
        &[
            Step::Keep(0, Keeping::Kept),
            Step::Keep(1, Keeping::Kept),
            Step::Keep(0, Keeping::Kept),
            Step::Holds(96, 2),
            Step::Keep(2, Keeping::Kept),
            Step::Look(1, false),
            Step::Look(0, true),
            Step::Look(2, true),
        ],
    ),
    // To ask whether a page is there is no use of it: the one that was asked for goes.
    (
        96,
        &[
            Step::There(0, false),
            Step::Keep(0, Keeping::Kept),
            Step::Keep(1, Keeping::Kept),
            Step::There(0, true),
            Step::There(1, true),
            Step::There(2, false),
            Step::There(0, true),
            Step::Keep(2, Keeping::Kept),
            Step::There(0, false),
            Step::There(1, true),
            Step::There(2, true),
            Step::There(3, false),
            Step::Holds(96, 2),
        ],
    ),
];

/// Builds the page of a file, and keeps it.
fn check_keep<F: Tree, R: Abort>(
    rt: &R,
    alloc: Global,
    files: &Snapshot,
    cache: &mut PageCache<F>,
    file: usize,
    want: Keeping,
) -> Result<(), Fail>
    requires { files.now ≡ F.files }
{
    assert!(rt; file < files.len());
    let page = Page::build(alloc, files, file)?;
    assert_eq!(rt; cache.keep(page), want);
    Ok(())
}

/// The step with the answer that there is.
fn answered<F: Tree, R: Abort>(
    rt: &R,
    alloc: Global,
    files: &Snapshot,
    cache: &mut PageCache<F>,
    step: Step,
) -> Result<Step, Fail>
    requires { files.now ≡ F.files }
{
    match step {
        Step::Keep(file, _) => {
            assert!(rt; file < files.len());
            let page = Page::build(alloc, files, file)?;
            Ok(Step::Keep(file, cache.keep(page)))
        }
        Step::Look(file, _) => Ok(Step::Look(file, cache.look(file)?.is_some())),
        Step::There(file, _) => Ok(Step::There(file, cache.holds(file))),
        Step::Holds(..) => Ok(Step::Holds(cache.bytes(), cache.len())),
    }
}

fn check_steps<F: Tree, R: Abort>(
    rt: &R,
    alloc: Global,
    files: &Snapshot,
    limit: usize,
    steps: &[Step],
) -> Result<(), Fail>
    requires { files.now ≡ F.files }
{
    let mut cache = PageCache::<F>::new(alloc, limit, files.len())?;
    for step in steps {
        let answer = answered(rt, alloc, files, &mut cache, *step)?;
        assert_eq!(rt; answer, *step);
    }
    Ok(())
}

#[test]
fn cache_eviction(rt: HostRuntime) -> Result<(), Fail> {
    let files = snapshot(rt.alloc(), THREE.as_bytes())?;
    for (limit, steps) in &STEPS {
        check_steps::<Brand, HostRuntime>(&rt, rt.alloc(), &files, *limit, steps)?;
    }
    Ok(())
}

/// The page of the first file, by a look; the second has its place then.
fn looked_at<F: Tree, R: Abort>(
    rt: &R,
    alloc: Global,
    files: &Snapshot,
    cache: &mut PageCache<F>,
) -> Result<Arc<Page<F>>, Fail>
    requires { files.now ≡ F.files }
{
    check_keep(rt, alloc, files, cache, 0, Keeping::Kept)?;
    let Some(page) = cache.look(0)? else {
        panic!(rt; "no page");
    };
    check_keep(rt, alloc, files, cache, 1, Keeping::Kept)?;
    Ok(page)
}

/// A page that a look gave outlives its place in the cache, and the cache.
fn check_outlives<F: Tree, R: Abort>(rt: &R, alloc: Global, files: &Snapshot) -> Result<(), Fail>
    requires { files.now ≡ F.files }
{
    let mut cache = PageCache::<F>::new(alloc, 48, files.len())?;
    let page = looked_at(rt, alloc, files, &mut cache)?;
    drop(cache);
    assert_eq!(rt; page.body(), b"hi\n".as_slice());
    Ok(())
}

#[test]
fn page_outlives_the_cache(rt: HostRuntime) -> Result<(), Fail> {
    let files = snapshot(rt.alloc(), THREE.as_bytes())?;
    check_outlives::<Brand, HostRuntime>(&rt, rt.alloc(), &files)
}

/// A cache of no file, of which no page can be kept.
#[test]
fn cache_of_no_file(rt: HostRuntime) -> Result<(), Fail> {
    let files = snapshot(rt.alloc(), b"haboob-snapshot 1\nend 0\n")?;
    let steps = [Step::Look(0, false), Step::Holds(0, 0)];
    check_steps::<Brand, HostRuntime>(&rt, rt.alloc(), &files, 0, &steps)
}

/// A snapshot of a thousand files without bytes, whose pages have 59 bytes each.
fn thousand(alloc: Global) -> Result<Snapshot, Fail> {
    let mut text = String::from_str(alloc, "haboob-snapshot 1\n")?;
    for n in 0..1_000u32 {
        let file = format!(in alloc; "file 0 3 0\n{n:03}\n\n")?;
        text.push_str(file.as_str())?;
    }
    text.push_str("end 1000\n")?;
    Ok(snapshot(alloc, text.as_bytes())?)
}

/// Keeps a thousand pages.
fn keep_all<F: Tree, R: Abort>(
    rt: &R,
    alloc: Global,
    files: &Snapshot,
    cache: &mut PageCache<F>,
) -> Result<(), Fail>
    requires { files.now ≡ F.files }
{
    for file in 0..1_000usize {
        check_keep(rt, alloc, files, cache, file, Keeping::Kept)?;
    }
    Ok(())
}

fn check_thousand<F: Tree, R: Abort>(rt: &R, alloc: Global, files: &Snapshot) -> Result<(), Fail>
    requires { files.now ≡ F.files }
{
    assert!(rt; files.len() == 1_000);
    let mut cache = PageCache::<F>::new(alloc, 59_000, 1_000)?;
    keep_all(rt, alloc, files, &mut cache)?;
    assert_eq!(rt; (cache.len(), cache.bytes()), (1_000, 59_000));
    for file in 0..1_000usize {
        assert!(rt; cache.look(file)?.is_some());
    }
    Ok(())
}

/// A thousand pages are in a cache at once.
#[test]
fn cache_of_a_thousand_pages(rt: HostRuntime) -> Result<(), Fail> {
    let files = thousand(rt.alloc())?;
    check_thousand::<Brand, HostRuntime>(&rt, rt.alloc(), &files)
}
