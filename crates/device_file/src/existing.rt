//! What is done with a file that is there.

/// What is done with a file that is there, where a new one is made at its path.
#[derive(Clone, Copy, Debug, PartialEq, Eq)]
pub enum Existing {
    /// It stays as it is, and no new one is made.
    Keep,
    /// It is locked, emptied, and becomes the new one.
    Replace,
}
