//! The page of a file.
ghost use Rattle.std.specs.Prelude.{◌≡◌};

use page_cache::{Keeping, MediaType, Page, PageCache, entity_fields};
use paths::{Snapshot, Tree};
use std::alloc::Global;
use std::marker::Brand;
use std::process::Abort;
use std::test::Fail;
use test_support::snapshot;

static TWO: &str =
    "haboob-snapshot 1\nfile 784111777 5 3\na.txt\nhi\n\nfile 0 9 0\nb/c.html5\n\nend 2\n";

/// The fields, the body and the size of the page of each of them.
static PAGES: [(&str, &str, usize); 2] = [
    (
        "Content-Type: text/plain\r\nContent-Length: 3\r\n",
        "hi\n",
        48,
    ),
    (
        "Content-Type: application/octet-stream\r\nContent-Length: 0\r\n",
        "",
        59,
    ),
];

fn check_page<F: Tree, R: Abort>(
    rt: &R,
    page: &Page<F>,
    file: usize,
    (fields, body, size): (&str, &str, usize),
) {
    assert_eq!(rt; (page.file(), page.size()), (file, size));
    assert_eq!(rt;
        (page.fields(), page.body()),
        (fields.as_bytes(), body.as_bytes())
    );
}

fn check_pages<F: Tree, R: Abort>(rt: &R, alloc: Global, files: &Snapshot) -> Result<(), Fail>
    requires { files.now ≡ F.files }
{
    assert!(rt; files.len() == 2);
    for file in 0..2usize {
        let page = Page::<F>::build(alloc, files, file)?;
        check_page(rt, &page, file, PAGES[file]);
    }
    Ok(())
}

#[test]
fn pages_of_two_files(rt: HostRuntime) -> Result<(), Fail> {
    let files = snapshot(rt.alloc(), TWO.as_bytes())?;
    check_pages::<Brand, HostRuntime>(&rt, rt.alloc(), &files)
}

#[test]
fn fields_of_a_large_file(rt: HostRuntime) -> Result<(), Fail> {
    let fields = entity_fields(rt.alloc(), MediaType::Jpeg, 16_777_216)?;
    assert_eq!(rt;
        fields.as_str(),
        "Content-Type: image/jpeg\r\nContent-Length: 16777216\r\n"
    );
    Ok(())
}

/// The page of the largest file is built, and kept by a cache of just its size.
fn check_largest<F: Tree, R: Abort>(rt: &R, alloc: Global, files: &Snapshot) -> Result<(), Fail>
    requires { files.now ≡ F.files }
{
    assert!(rt; files.len() == 1);
    let page = Page::<F>::build(alloc, files, 0)?;
    assert_eq!(rt; (page.size(), page.body().len()), (16_777_282, 16_777_216));
    let mut cache = PageCache::<F>::new(alloc, 16_777_282, 1)?;
    assert_eq!(rt; cache.keep(page), Keeping::Kept);
    Ok(())
}

#[test]
fn page_of_the_largest_file(rt: HostRuntime) -> Result<(), Fail> {
    let mut text = String::from_str(rt.alloc(), "haboob-snapshot 1\nfile 0 1 16777216\na\n")?;
    let bytes = "b".repeat(rt.alloc(), 16_777_216)?;
    text.push_str(bytes.as_str())?;
    text.push_str("\nend 1\n")?;
    let files = snapshot(rt.alloc(), text.as_bytes())?;
    check_largest::<Brand, HostRuntime>(&rt, rt.alloc(), &files)
}
