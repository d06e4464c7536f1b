//! The page of a file, which is the end of each reply that gives it, and a cache of pages of limited size.
#![tactic(auto)]

mod cache;
mod laws;
mod media;
mod page;

pub use cache::{Keeping, PageCache};
pub use laws::fitting_is_longest;
pub use media::{MediaType, entity_fields};
pub use page::Page;
