//! How far a write that promises has come.

/// How far a write that is to be promised has come, or a commit of the writes before it.
#[derive(Clone, Copy, Debug, PartialEq, Eq)]
pub enum Stage {
    /// It waits for room in a batch.
    Waits,
    /// A batch has it, and records are left to write.
    Accepted,
    /// It is durable, as all writes before it are.
    Promised,
    /// The store is dead.
    Failed,
}
