//! The calls of a file.
ghost use Rattle.std.specs.Prelude.{◌≡◌, true, false};

/// What a file is opened for.
#[derive(Clone, Copy, Debug, PartialEq, Eq)]
pub enum Access {
    /// To be read alone: the system refuses its writes.
    Look,
    /// To be read and written.
    Change,
    /// To be read and written: it is made, and one that is there is refused.
    Make,
    /// To be read and written: it is made where it is not there.
    Replace,
}

/// What a file is asked for.
#[derive(Clone, Copy)]
pub enum FileCall {
    /// To be open for this.
    Open(Access),
    Lock,
    /// To tell how many bytes it has.
    Measure,
    /// To have this many bytes.
    Resize(u64),
    /// To tell bytes from this place on.
    Read(u64),
    /// To hold bytes from this place on.
    Write(u64),
    /// To make durable what it holds.
    Sync,
}

/// A call, whether it was good, and the length that it told, if it told one.
#[derive(Clone, Copy)]
pub(crate) struct Answered {
    pub call: FileCall,
    pub good: bool,
    pub length: u64,
}

impl Answered {
    /// A call that told no length.
    pub(crate) fn by(call: FileCall, good: bool) -> Answered
        ensures { result ≡ record { call = call; good = good; length = 0 } }
    {
        Answered {
            call,
            good,
            length: 0,
        }
    }
}
