//! How far the copying of records is.

/// Which block is copied home next.
#[derive(Clone, Copy)]
pub(crate) struct CopyStep {
    /// How many records are not home, this one among them.
    pub left: u64,
    /// How many blocks of this one are.
    pub i: usize,
    /// The bytes of its next block in the log were read.
    pub has_bytes: bool,
}
