//! The errors of the calls of a store.
use thiserror::Error;

/// Why a store refuses a call. The numbers go on from that of a start for want of memory.
#[derive(Clone, Copy, Debug, PartialEq, Eq, Error)]
pub enum StoreFault {
    /// The medium refused a read. The store is unchanged.
    #[error("the medium refused a read")]
    ReadFault = 2,
    /// The store is dead until the next start: it was, or it died in this call.
    #[error("the store is dead")]
    Dead = 3,
}
