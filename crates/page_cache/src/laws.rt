//! What the definitions mean that the contracts cite. Each function is there for its clause alone.
ghost use Rattle.page_cache.specs.CacheLists.{FittingIsLongest};

/// What fits of a list is its longest prefix whose pages have no more bytes than there is room for.
pub fn fitting_is_longest()
    ensures { FittingIsLongest }
{}
