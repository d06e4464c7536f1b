//! A page: the fields and the bytes of a file, built once.

ghost use Rattle.std.specs.Prelude.{◌≡◌, ◌<◌, length, IfOk};
ghost use Rattle.std.specs.Arc.{arc_value};
ghost use Rattle.paths.specs.Reference.{file_of};
ghost use Rattle.page_cache.specs.Pages.{page_fields, page_size};

use crate::MediaType;
use crate::media::entity_fields_before;
use paths::{Snapshot, Tree};
use std::alloc::{AllocError, Global};
use std::marker::{Model, PhantomData};
use std::sync::Arc;

/// The page of a file of the snapshot that the type names: the fields that tell its content, and its bytes. Contracts
/// see the number of the file, since the text follows from it.
#[derive(Drop)]
pub struct Page<F: Tree> {
    file: usize,
    text: Vec<u8>,
    /// Where the bytes of the file begin in the text.
    split: usize,
    of: PhantomData<F>,
}

impl<F: Tree> Model for Page<F> {
    ghost use Rattle.std.specs.Prelude.{ℕ};
    ghost use Rattle.page_cache.specs.Pages.{HoldsPage};

    ghost Value = { ℕ };

    ghost view = { λ p. p.file };

    ghost invariant = { λ p. HoldsPage F.files p.file p.text.items p.split };
}

impl<F: Tree> Page<F> {
    /// The page of a file, to be shared.
    pub fn build(
        alloc: Global,
        snapshot: &Snapshot,
        file: usize,
    ) -> Result<Arc<Page<F>>, AllocError>
        requires snapshot { snapshot.now ≡ F.files }
        requires file { file < length snapshot.now }
        ensures { IfOk result (λ p. arc_value p ≡ file) }
    {
        let bytes = snapshot.bytes(file);
        let media = MediaType::of_name(snapshot.name(file));
        let mut text = entity_fields_before(alloc, media, bytes.len(), bytes.len())?.into_bytes();
        let split = text.len();
        text.extend_from_slice(bytes)?;
        let page = Page {
            file,
            text,
            split,
            of: PhantomData,
        };
        Ok(Arc::new(alloc, page)?)
    }

    /// The number of the file.
    pub fn file(&self) -> usize
        ensures number { result ≡ self.now }
        ensures there { result < length F.files }
    {
        self.file
    }

    /// The fields `Content-Type` and `Content-Length` of the file, each with CR LF after it.
    pub fn fields(&self) -> &[u8]
        ensures { result.now ≡ page_fields (file_of F.files self.now) }
    {
        &self.text[..self.split]
    }

    /// The bytes of the file.
    pub fn body(&self) -> &[u8]
        ensures { result.now ≡ (file_of F.files self.now).bytes }
    {
        &self.text[self.split..]
    }

    /// How many bytes the fields and the file have together.
    #[tactic(auto, unfolding(crate::specs::Pages::page_size))]
    pub fn size(&self) -> usize
        ensures { result ≡ page_size F.files self.now }
    {
        self.text.len()
    }
}
