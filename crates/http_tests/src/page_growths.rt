//! Out of memory: `checks/refuse_growths.py` refuses each growth of these tests in turn.
ghost use Rattle.std.specs.Prelude.{◌≡◌};

use page_cache::{Keeping, Page, PageCache};
use paths::{Snapshot, Tree};
use std::alloc::Global;
use std::marker::Brand;
use std::process::Abort;
use test_support::snapshot;

static TWO: &str = "haboob-snapshot 1\nfile 0 5 3\na.txt\nhi\n\nfile 0 5 3\nb.txt\nhi\n\nend 2\n";

/// Keeps the page of a file, of 48 bytes; whether it is kept, or nothing where it wasn't built.
fn keep_page<F: Tree, R: Abort>(
    rt: &R,
    alloc: Global,
    files: &Snapshot,
    cache: &mut PageCache<F>,
    file: usize,
    limit: usize,
) -> Option<bool>
    requires { files.now ≡ F.files }
{
    assert!(rt; file < files.len());
    let Ok(page) = Page::<F>::build(alloc, files, file) else {
        return None;
    };
    assert_eq!(rt; page.size(), 48);
    let answer = cache.keep(page);
    assert!(rt; limit < 48 || answer != Keeping::TooBig);
    Some(answer == Keeping::Kept)
}

/// The cache has these pages.
fn check_kept<F: Tree, R: Abort>(rt: &R, cache: &PageCache<F>, kept: [bool; 2]) {
    let count = kept.iter().filter(|is_kept| **is_kept).count();
    assert_eq!(rt; (cache.len(), cache.bytes()), (count, count * 48));
}

/// A look finds these pages.
fn check_looks<F: Tree, R: Abort>(rt: &R, cache: &mut PageCache<F>, kept: [bool; 2]) {
    for file in 0..2usize {
        let Ok(found) = cache.look(file) else {
            return;
        };
        assert_eq!(rt; found.is_some(), kept[file]);
    }
}

/// A growth that is refused is answered so and changes nothing; else the answers are right.
fn check_growths<F: Tree, R: Abort>(rt: &R, alloc: Global, files: &Snapshot, limit: usize)
    requires { files.now ≡ F.files }
{
    assert!(rt; files.len() == 2);
    let Ok(mut cache) = PageCache::<F>::new(alloc, limit, 2) else {
        return;
    };
    let mut kept = [false; 2];
    for file in 0..2usize {
        let Some(is_kept) = keep_page(rt, alloc, files, &mut cache, file, limit) else {
            return;
        };
        if is_kept && limit < 96 {
            kept = [false; 2];
        }
        kept[file] = kept[file] || is_kept;
        check_kept(rt, &cache, kept);
    }
    check_looks(rt, &mut cache, kept);
}

#[test]
fn each_growth_refused(rt: HostRuntime) {
    if let Ok(files) = snapshot(rt.alloc(), TWO.as_bytes()) {
        for limit in [47, 48, 95, 96] {
            check_growths::<Brand, HostRuntime>(&rt, rt.alloc(), &files, limit);
        }
    }
}
