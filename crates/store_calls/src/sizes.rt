//! How large a store is.

/// How many blocks there are, and how many a read and a write have at most.
#[derive(Clone, Copy)]
pub struct Sizes {
    pub blocks: u64,
    pub limit: u32,
}
