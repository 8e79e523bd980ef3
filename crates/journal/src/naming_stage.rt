//! How far the sectors are read that name the blocks of a record.

/// Which of the sectors that name the blocks of a record is read next.
#[derive(Clone, Copy)]
pub enum NamingStage {
    /// The descriptor of format 1.
    Descriptor,
    /// The commit of format 1.
    Commit,
    /// The commit of format 2, which counts the blocks.
    Commit2,
    /// Of a record of this many blocks of format 2 the descriptor of this index.
    Descriptor2(u64, u64),
    /// None: the blocks are named.
    Named,
    /// None: the record is not whole.
    Missing,
}
