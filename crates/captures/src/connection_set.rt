//! A set of connection numbers.

ghost use Rattle.std.specs.Prelude.{◌≡◌, ◌==◌, ◌||◌, ◌&&◌, ℕ, false, not};
ghost use Rattle.captures.specs.Readers.{is_in};

/// A set of connections, one bit each: it has room for all 65,536 of them in 8 KiB, and takes no other memory.
#[derive(Drop)]
pub struct ConnectionSet {
    /// Connection 0 is the lowest bit of the first word.
    pub words: [u64; 1024],
}

impl ConnectionSet {
    /// The empty set.
    pub(crate) fn new() -> ConnectionSet
        ensures { (c : ℕ) → is_in result c ≡ false }
    {
        ConnectionSet { words: [0; 1024] }
    }

    pub(crate) fn contains(&self, conn: u16) -> bool
        ensures { result ≡ is_in self.now conn }
    {
        let conn = usize::from(conn);
        self.words[conn / 64] >> (conn % 64) & 1 == 1
    }

    pub(crate) fn insert(&mut self, conn: u16)
        ensures { (c : ℕ) → is_in self.new c ≡ (is_in self.old c || conn == c) }
    {
        let conn = usize::from(conn);
        self.words[conn / 64] = self.words[conn / 64] | 1 << (conn % 64);
    }

    pub(crate) fn remove(&mut self, conn: u16)
        ensures { (c : ℕ) → is_in self.new c ≡ (is_in self.old c && not (conn == c)) }
    {
        let conn = usize::from(conn);
        self.words[conn / 64] = self.words[conn / 64] & !(1 << (conn % 64));
    }
}
