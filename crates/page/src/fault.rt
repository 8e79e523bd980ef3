//! Why a step was not good.

/// Why a step was not good.
#[derive(Clone, Copy)]
pub(crate) enum Fault {
    /// The power went off in it.
    Lost,
    /// No disk runs, or, of a start, one runs already.
    Idle,
    /// The blocks are no blocks of the disk, or the step is none.
    Refused,
    /// The disk failed otherwise.
    Failed,
    NoMemory,
}
