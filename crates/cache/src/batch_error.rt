//! Why no batch was made.
use thiserror::Error;

/// Why no batch was made.
#[derive(Error, Clone, Copy, Debug, PartialEq, Eq)]
pub enum BatchError {
    /// A growth was refused.
    #[error("out of memory")]
    NoMemory = 1,
    /// The room is for more than 65,536 blocks.
    #[error("room for too many blocks")]
    TooLarge = 2,
}
