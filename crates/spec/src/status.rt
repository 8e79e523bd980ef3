//! How a command ended.

/// What a command status wrapper says of its command, with the byte that stands for it (Bulk-Only
/// Transport 1.0, 5.2).
#[derive(Clone, Copy, Debug, PartialEq, Eq)]
pub enum Status {
    Passed = 0,
    Failed = 1,
    PhaseError = 2,
}
