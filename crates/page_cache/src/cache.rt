//! The cache: pages by the numbers of their files, the latest used first.

ghost use Rattle.std.specs.Prelude.{◌≡◌, ◌≤◌, [], length, max, option_map, true, IfOk, IfSome, OnErr};
ghost use Rattle.std.specs.Arc.{arc_value};
ghost use Rattle.page_cache.specs.CacheLists.{found, has, looked, sizes};

mod keep;

use crate::Page;
use lru::LruCache;
use paths::Tree;
use std::alloc::{AllocError, Global};
use std::marker::Model;
use std::num::NonZeroUsize;
use std::sync::Arc;

/// What became of a page that was to be kept.
#[derive(Clone, Copy, Debug, PartialEq, Eq)]
pub enum Keeping {
    /// It has more bytes than all pages together may have.
    TooBig,
    /// It is the most recently used.
    Kept,
    /// There was no memory for it.
    NoMemory,
}

/// Pages of the snapshot that the type names, within a number of bytes. Contracts see the list of the pages, by the
/// numbers of their files and the most recently used first, the limit, and for how many pages the table has room.
#[derive(Drop)]
pub struct PageCache<F: Tree> {
    pages: LruCache<usize, Arc<Page<F>>>,
    bytes: usize,
    limit: usize,
}

impl<F: Tree> Model for PageCache<F> {
    ghost use Rattle.std.specs.Prelude.{ℕ};
    ghost use Rattle.std.specs.Map.{keys_of};
    ghost use Rattle.std.specs.Arc.{arc_value};
    ghost use Rattle.page_cache.specs.CacheLists.{CacheList};
    ghost use Rattle.page_cache.specs.CacheLists.{IsCache};

    ghost Value = { CacheList };

    ghost view = { λ c. record { pages = keys_of c.pages.entries; limit = c.limit; table = c.pages.cap } };

    ghost invariant = { λ c. IsCache F.files (λ p. arc_value p) c.pages c.bytes c.limit };
}

impl<F: Tree> PageCache<F> {
    /// A cache without pages, for at most n bytes. Room in its table is reserved here for a page of each file, of
    /// which a snapshot has at most 65,536. A page that is kept takes memory for its own entry alone.
    pub fn new(alloc: Global, limit: usize, files: usize) -> Result<PageCache<F>, AllocError>
        requires { length F.files ≤ files }
        ensures { IfOk result (λ c. c ≡ record { pages = []; limit = limit; table = max files 1 }) }
    {
        let most = NonZeroUsize::new(files).unwrap_or(NonZeroUsize::MIN);
        Ok(PageCache {
            pages: LruCache::new(alloc, most)?,
            bytes: 0,
            limit,
        })
    }

    /// The page of a file, if it is there; it becomes the most recently used.
    pub fn look(&mut self, file: usize) -> Result<Option<Arc<Page<F>>>, AllocError>
        ensures page { IfOk result
            (λ page. option_map (λ p. arc_value p) page ≡ found file self.old.pages) }
        // Whatever is there, it is the page of that file.
        ensures own { IfOk result (λ page. IfSome page (λ p. arc_value p ≡ file)) }
        // Only a page that is there takes memory.
        ensures absent { OnErr result (has file self.old.pages ≡ true) }
        // Also where there was no memory for a further owner.
        ensures list { self.new ≡ looked file self.old }
    {
        let page = self.find(file);
        self.bring(file);
        page
    }

    fn find(&self, file: usize) -> Result<Option<Arc<Page<F>>>, AllocError>
        ensures page { IfOk result
            (λ page. option_map (λ p. arc_value p) page ≡ found file self.now.pages) }
        ensures own { IfOk result (λ page. IfSome page (λ p. arc_value p ≡ file)) }
        ensures absent { OnErr result (has file self.now.pages ≡ true) }
    {
        match self.pages.peek(&file) {
            Some(page) => Ok(Some(Arc::try_clone(page)?)),
            None => Ok(None),
        }
    }

    fn bring(&mut self, file: usize)
        ensures { self.new ≡ looked file self.old }
    {
        self.pages.promote(&file);
    }

    /// Whether the page of a file is there. Nothing changes, not even which was used last.
    pub fn holds(&self, file: usize) -> bool
        ensures { result ≡ has file self.now.pages }
    {
        self.pages.contains(&file)
    }

    /// How many bytes the pages have together.
    pub fn bytes(&self) -> usize
        ensures sum { result ≡ sizes F.files self.now.pages }
        ensures limit { result ≤ self.now.limit }
    {
        self.bytes
    }

    /// How many pages there are.
    pub fn len(&self) -> usize
        ensures { result ≡ length self.now.pages }
    {
        self.pages.len()
    }
}
