//! The calls that a medium can refuse.
use thiserror::Error;

/// The kind of the call that a medium refused.
#[derive(Error, Clone, Copy, Debug, PartialEq, Eq)]
pub enum MediumFault {
    #[error("the medium refused a read")]
    Read = 1,
    #[error("the medium refused a write")]
    Write = 2,
    #[error("the medium refused a flush")]
    Flush = 3,
}
