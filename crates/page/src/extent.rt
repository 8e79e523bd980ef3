//! The blocks of a command.

/// The most blocks of a disk that a page shows.
pub(crate) const MOST_BLOCKS: usize = 32;

/// Their bytes.
pub(crate) const MOST_BYTES: usize = 512 * MOST_BLOCKS;

/// Blocks one after the other, and the byte that fills them.
#[derive(Clone, Copy)]
pub(crate) struct Extent {
    pub(crate) first: u64,
    pub(crate) count: usize,
    pub(crate) fill: u8,
}

impl Extent {
    ghost use Rattle.std.specs.Prelude.{◌≡◌, ◌↔◌, IsTrue};
    ghost use Rattle.page.specs.Extents.{LiesWithin};

    /// Whether they are blocks of a disk of so many.
    pub(crate) fn lies_within(&self, blocks: u64) -> bool
        ensures { IsTrue result ↔ LiesWithin self.now blocks }
    {
        1 <= self.count
            && self.count <= MOST_BLOCKS
            && self.count as u64 <= blocks
            && self.first <= blocks - self.count as u64
    }
}
