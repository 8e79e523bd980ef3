//! Why what the device told is not taken.
use thiserror::Error;

#[derive(Error, Clone, Copy, Debug, PartialEq, Eq)]
pub enum DoneFault {
    /// The device was asked for nothing.
    #[error("the device was asked for nothing")]
    NothingAsked,
    /// The bytes are not those of the sectors that it was to read.
    #[error("bad length")]
    BadLength,
}
