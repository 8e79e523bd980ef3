//! The version that C is told.

/// The version: two bytes for the first number, and one for each other.
pub(crate) const VERSION: u32 = 0x010F00;
