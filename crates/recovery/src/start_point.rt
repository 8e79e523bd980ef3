//! How far a start is.
use crate::StartFault;
use crate::found::Found;
use crate::recovered::Recovered;
use journal::Super;

/// Which call of a start comes next.
#[derive(Clone, Copy)]
pub(crate) enum StartPoint {
    /// The flush before the first read.
    FlushFirst,
    /// The read of the super.
    ReadSuper,
    /// The read of the head, behind this super.
    ReadHead(Super),
    /// The next read of the survey of the records that are whole from this stamp on.
    Survey(u64),
    /// The next read or write of the copying of these records home.
    Copy(Found),
    /// The flush of their blocks at home.
    FlushCopies(Found),
    /// The head, at the stamp behind the first record that is not whole.
    WriteHead(Found),
    /// The flush of the head.
    FlushHead(Found),
    /// None: it is done, and this is its answer.
    Started(Recovered),
    /// None: it is refused.
    Refused(StartFault),
}
