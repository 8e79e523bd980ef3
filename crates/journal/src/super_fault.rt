//! What can be wrong with a super.
use thiserror::Error;

/// What is wrong with a sector that should be a super: the first that applies, in this order.
#[derive(Clone, Copy, Debug, PartialEq, Eq, Error)]
pub enum SuperFault {
    /// It does not begin with the mark `RDSUPER1`.
    #[error("no super")]
    Magic = 1,
    /// Its version is neither 1 nor 2.
    #[error("another version")]
    Version = 2,
    /// Behind its fields there are bytes that are not zero.
    #[error("bytes behind the super")]
    Rest = 3,
    /// A size is out of its limits, or a place is not the one that the sizes give.
    #[error("bad sizes")]
    Sizes = 4,
}
