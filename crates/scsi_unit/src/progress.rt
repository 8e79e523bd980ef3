//! How a command that needs the medium goes on.
use scsi_commands::Sense;

/// What a command that is not over wants next.
#[derive(Clone, Copy, Debug, PartialEq, Eq)]
pub enum Want {
    /// Room for its write in a batch.
    Room,
    /// That all accepted writes are durable, its own among them.
    Commit,
    /// The blocks that it reads.
    Read,
}

/// How far a command has come.
pub enum Progress {
    /// It is over: how many bytes it sends, or the sense with which it failed.
    Done(Result<usize, Sense>),
    /// It is not over, and wants this. Meanwhile the unit is as before it.
    Wants(Want),
}
