//! Keeping a page: as few others go for it as possible.

ghost use Rattle.std.specs.Arc.{arc_value};
ghost use Rattle.page_cache.specs.CacheLists.{KeptAs};

use crate::{Keeping, Page, PageCache};
use paths::Tree;
use std::sync::Arc;

impl<F: Tree> PageCache<F> {
    /// Keeps a page as the most recently used. Where it is new, the least recently used pages go until the sizes of the
    /// others fit the limit.
    pub fn keep(&mut self, page: Arc<Page<F>>) -> Keeping
        ensures { KeptAs F.files (arc_value page) self.old self.new result }
    {
        let file = page.file();
        let size = page.size();
        if size > self.limit {
            return Keeping::TooBig;
        }
        if self.pages.promote(&file) {
            return Keeping::Kept;
        }
        // The files of the pages are different ones, and this one is none of them.
        prove!(self.pages.len() < self.pages.cap().get());
        let Ok(_) = self.pages.put(file, page) else {
            return Keeping::NoMemory;
        };
        while self.bytes > self.limit - size {
            if let Some((_, oldest)) = self.pages.pop_lru() {
                self.bytes -= oldest.size();
            }
        }
        self.bytes += size;
        Keeping::Kept
    }
}
