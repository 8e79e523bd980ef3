//! The fields of command block wrappers.
use crate::way::Way;
use arrayvec::ArrayVec;

/// The fields of a command block wrapper (Bulk-Only Transport 1.0, 5.1).
#[derive(Debug, Drop, PartialEq, Eq)]
pub struct Cbw {
    /// What the command status wrapper repeats.
    pub tag: u32,
    /// What the host announces: the transfer length and its direction.
    pub host: Way,
    /// The command descriptor block, of 1 to 16 bytes.
    pub block: ArrayVec<u8, 16>,
}
