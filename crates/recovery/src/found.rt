//! What recovery finds before its first write.
use journal::Super;

/// The sizes, the stamp of the head, and how many whole records follow it.
#[derive(Clone, Copy)]
pub(crate) struct Found {
    pub sizes: Super,
    pub head: u64,
    pub count: u64,
}
