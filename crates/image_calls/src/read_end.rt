//! How a read of the first sectors ended.

/// How a read of the first sectors ended.
#[derive(Clone, Copy, Debug, PartialEq, Eq)]
pub enum ReadEnd {
    Taken,
    /// The device refused it.
    Refused,
    /// There was no memory for what is read.
    NoMemory,
}
