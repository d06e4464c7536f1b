//! A page that several replies may hold.

ghost use Rattle.std.specs.Prelude.{◌≡◌};
ghost use Rattle.std.specs.Arc.{arc_value};
ghost use Rattle.paths.specs.Reference.{file_of};
ghost use Rattle.page_cache.specs.Pages.{page_fields};

use page_cache::Page;
use paths::Tree;
use std::marker::Model;
use std::sync::Arc;

/// A page that others hold too. Contracts see the number of its file, as they do of the page itself.
#[derive(Drop)]
pub struct SharedPage<F: Tree> {
    page: Arc<Page<F>>,
}

impl<F: Tree> Model for SharedPage<F> {
    ghost use Rattle.std.specs.Prelude.{ℕ};
    ghost use Rattle.std.specs.Arc.{arc_value};

    ghost Value = { ℕ };

    ghost view = { λ p. arc_value p.page };
}

impl<F: Tree> SharedPage<F> {
    /// The page, which is not copied.
    pub fn new(page: Arc<Page<F>>) -> SharedPage<F>
        ensures { result ≡ arc_value page }
    {
        SharedPage { page }
    }

    /// The fields `Content-Type` and `Content-Length` of the file, each with CR LF after it.
    pub(crate) fn fields(&self) -> &[u8]
        ensures { result.now ≡ page_fields (file_of F.files self.now) }
    {
        self.page.fields()
    }

    /// The bytes of the file.
    pub(crate) fn body(&self) -> &[u8]
        ensures { result.now ≡ (file_of F.files self.now).bytes }
    {
        self.page.body()
    }
}
