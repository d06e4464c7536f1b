//! A long sequence of looks and keeps, beside a plain list.
ghost use Rattle.std.specs.Prelude.{◌≡◌};

use page_cache::{Keeping, Page, PageCache};
use paths::{Snapshot, Tree};
use std::alloc::{AllocError, Global};
use std::marker::Brand;
use std::process::Abort;
use std::sync::Arc;
use std::test::Fail;
use test_support::snapshot;

/// Six files, of 0, 10, 20, 30, 50 and 100 bytes.
static SIX: &str = "haboob-snapshot 1
file 0 1 0
a

file 0 1 10
b
0123456789
file 0 1 20
c
01234567890123456789
file 0 1 30
d
012345678901234567890123456789
file 0 1 50
e
01234567890123456789012345678901234567890123456789
file 0 1 100
f
0123456789012345678901234567890123456789012345678901234567890123456789012345678901234567890123456789
end 6
";

/// How many bytes their pages have: 56 beside the digits of the length, and the file.
static SIZES: [usize; 6] = [59, 70, 80, 90, 110, 161];

/// The size of the page of a file.
fn size_of(file: usize) -> usize {
    match SIZES.get(file) {
        Some(size) => *size,
        None => 0,
    }
}

/// Brings a file to the front of a list, if it is there.
fn bring(list: &mut Vec<usize>, file: usize) -> Result<bool, AllocError> {
    match list.iter().position(|other| *other == file) {
        Some(at) => {
            list.remove(at);
            list.insert(0, file)?;
            Ok(true)
        }
        None => Ok(false),
    }
}

/// The list with a new file in front, and of the others those that fit beside it.
fn put(alloc: Global, list: &[usize], file: usize, limit: usize) -> Result<Vec<usize>, AllocError> {
    let mut new = Vec::new(alloc);
    new.push(file)?;
    let mut capacity = limit.saturating_sub(size_of(file));
    for other in list {
        match capacity.checked_sub(size_of(*other)) {
            Some(rest) => {
                capacity = rest;
                new.push(*other)?;
            }
            None => return Ok(new),
        }
    }
    Ok(new)
}

/// How many bytes the pages of a list have.
fn total(list: &[usize]) -> usize {
    list.iter()
        .fold(0usize, |sum, file| sum.wrapping_add(size_of(*file)))
}

/// A look finds a page where the list has the file.
fn check_look<F: Tree, R: Abort>(
    rt: &R,
    cache: &mut PageCache<F>,
    list: &mut Vec<usize>,
    file: usize,
) -> Result<(), Fail> {
    let there = bring(list, file)?;
    let found = cache.look(file)?;
    assert_eq!(rt; found.is_some(), there);
    Ok(())
}

/// What is answered where a page of a file is kept.
fn answer_of(file: usize, limit: usize) -> Keeping {
    if size_of(file) > limit {
        Keeping::TooBig
    } else {
        Keeping::Kept
    }
}

/// The list, once a page of a file was kept.
fn keep_in(
    alloc: Global,
    list: &mut Vec<usize>,
    file: usize,
    limit: usize,
) -> Result<(), AllocError> {
    if size_of(file) <= limit && !bring(list, file)? {
        *list = put(alloc, list, file, limit)?;
    }
    Ok(())
}

/// A page is kept where it isn't too large.
fn check_keep<F: Tree, R: Abort>(
    rt: &R,
    cache: &mut PageCache<F>,
    page: Arc<Page<F>>,
    limit: usize,
) {
    let (file, size) = (page.file(), page.size());
    let answer = cache.keep(page);
    assert_eq!(rt; (size, answer), (size_of(file), answer_of(file, limit)));
}

/// The pages that are there are those of the list.
fn check_there<F: Tree, R: Abort>(rt: &R, cache: &PageCache<F>, list: &[usize]) {
    assert_eq!(rt; (cache.len(), cache.bytes()), (list.len(), total(list)));
    for file in 0..6usize {
        assert_eq!(rt; cache.holds(file), list.contains(&file));
    }
}

/// A look, or a keep of a page, as a number says.
fn check_turn<F: Tree, R: Abort>(
    rt: &R,
    files: &Snapshot,
    alloc: Global,
    cache: &mut PageCache<F>,
    list: &mut Vec<usize>,
    number: u32,
    limit: usize,
) -> Result<(), Fail>
    requires { files.now ≡ F.files }
{
    let file = (number >> 16) as usize % 6;
    if number >> 31 == 0 {
        return check_look(rt, cache, list, file);
    }
    assert!(rt; files.len() == 6);
    let page = Page::build(alloc, files, file)?;
    check_keep(rt, cache, page, limit);
    Ok(keep_in(alloc, list, file, limit)?)
}

/// Makes looks and keeps of files by turns that a generator picks, and compares.
fn check_sequence<F: Tree, R: Abort>(
    rt: &R,
    alloc: Global,
    files: &Snapshot,
    limit: usize,
) -> Result<(), Fail>
    requires { files.now ≡ F.files }
{
    assert!(rt; files.len() == 6);
    let mut cache = PageCache::<F>::new(alloc, limit, 6)?;
    let mut list = Vec::new(alloc);
    let mut seed: u32 = 1;
    for _ in 0..400u32 {
        seed = seed.wrapping_mul(1_664_525).wrapping_add(1_013_904_223);
        check_turn(rt, files, alloc, &mut cache, &mut list, seed, limit)?;
        check_there(rt, &cache, &list);
    }
    Ok(())
}

#[test]
fn looks_and_keeps_beside_a_list(rt: HostRuntime) -> Result<(), Fail> {
    let files = snapshot(rt.alloc(), SIX.as_bytes())?;
    for limit in [0, 59, 100, 159, 250, 400, 569, 570, 1000] {
        check_sequence::<Brand, HostRuntime>(&rt, rt.alloc(), &files, limit)?;
    }
    Ok(())
}
