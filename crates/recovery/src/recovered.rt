//! What recovery answers.
use journal::Super;

/// What is known of a medium once it is recovered.
#[derive(Clone, Copy, Debug, PartialEq, Eq)]
pub struct Recovered {
    /// How many blocks and log slots it has.
    pub sizes: Super,
    /// The stamp of the next record, at most 2^63 - 1.
    pub next: u64,
}
