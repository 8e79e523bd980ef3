//! Why a store did not do what it was asked for.
use thiserror::Error;

#[derive(Clone, Copy, Debug, PartialEq, Eq, Error)]
pub enum StoreFault {
    /// The device has to carry out something before: make the same call again then. Where a write
    /// or a sync finds a batch before it that is to be written first, steps are made that write it.
    #[error("the device is busy")]
    Busy,
    /// The device could not read a sector that is lacking.
    #[error("a read was refused")]
    ReadRefused,
    /// The store neither reads nor writes until the next start.
    #[error("the store is dead")]
    Dead,
    /// The bytes are no whole blocks, none, or more than there may be.
    #[error("bad length")]
    Length,
    /// A block is behind the last one.
    #[error("out of range")]
    Range,
}
