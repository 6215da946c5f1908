//! The bytes of sections that are not given yet.

ghost use Rattle.std.specs.Prelude.{◌≡◌, ℕ, ◌+◌, ◌-◌, ◌≤◌, List, [], ◌++◌, length, take, drop};

/// The longest section.
pub const SECTION_SIZE: usize = 4096;

/// Bytes in a row: the longest section, and those of a packet behind it.
#[derive(Clone, Copy)]
pub struct Store {
    bytes: [u8; 4280],
    /// Where the bytes that are not given yet begin.
    at: usize,
    /// Where they end.
    end: usize,
    ghost ordered: { at ≤ end },
    ghost within: { end ≤ 4280 },
    ghost size: { length bytes ≡ 4280 },
}

impl Store {
    ghost use Rattle.psi_section.specs.Storing.{content};

    /// An empty store.
    pub(crate) fn new() -> Store
        ensures { content result ≡ [] }
    {
        Store {
            bytes: [0; 4280],
            at: 0,
            end: 0,
        }
    }

    /// The number of bytes not given yet.
    pub(crate) fn len(&self) -> usize
        ensures { result ≡ length (content self.now) }
    {
        self.end - self.at
    }

    /// The bytes not given yet.
    pub(crate) fn content(&self) -> &[u8]
        ensures { result.now ≡ content self.now }
    {
        &self.bytes[self.at..self.end]
    }

    /// Passes over bytes.
    pub(crate) fn skip(&mut self, count: usize)
        requires { count ≤ length (content self.old) }
        ensures { content self.new ≡ drop count (content self.old) }
    {
        self.at += count;
    }

    /// Leaves the first so many bytes.
    pub(crate) fn truncate(&mut self, count: usize)
        requires { count ≤ length (content self.old) }
        ensures { content self.new ≡ take count (content self.old) }
    {
        self.end = self.at + count;
    }

    /// Leaves nothing.
    pub(crate) fn clear(&mut self)
        ensures { content self.new ≡ [] }
    {
        self.at = 0;
        self.end = 0;
    }

    /// Moves the bytes not given yet to the front.
    fn settle(&mut self)
        ensures same { content self.new ≡ content self.old }
        ensures front { self.new.at ≡ 0 }
    {
        self.bytes.copy_within(self.at..self.end, 0);
        self.end -= self.at;
        self.at = 0;
    }

    /// Appends bytes, which fit behind the others where these stand.
    fn put(&mut self, piece: &[u8])
        requires { self.old.end + length piece.now ≤ 4280 }
        ensures { content self.new ≡ content self.old ++ piece.now }
    {
        let end = self.end + piece.len();
        self.bytes[self.end..end].copy_from_slice(piece);
        self.end = end;
    }

    /// Appends bytes.
    pub(crate) fn append(&mut self, piece: &[u8])
        requires { length (content self.old) + length piece.now ≤ 4280 }
        ensures { content self.new ≡ content self.old ++ piece.now }
    {
        if 4280 - self.end < piece.len() {
            self.settle();
        }
        self.put(piece);
    }
}
