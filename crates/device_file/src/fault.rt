//! Why a call of a file was refused.
ghost use Rattle.std.specs.Prelude.{◌≡◌};

use std::io::ErrorKind;

/// The kinds of calls of a file.
#[derive(Clone, Copy, Debug, PartialEq, Eq)]
pub enum FileCall {
    Open = 1,
    Lock = 2,
    Length = 3,
    Read = 4,
    Write = 5,
    Sync = 6,
}

impl FileCall {
    /// The refusal of such a call for this cause.
    pub(crate) fn refused_for(self, cause: ErrorKind) -> FileFault
        ensures { result ≡ record { call = self; cause = cause } }
    {
        FileFault { call: self, cause }
    }
}

/// The call that a file refused, and the system's cause.
#[derive(Clone, Copy, Debug, PartialEq, Eq)]
pub struct FileFault {
    pub call: FileCall,
    pub cause: ErrorKind,
}
