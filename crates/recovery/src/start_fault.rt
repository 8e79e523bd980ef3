//! Why a start is refused.
use medium::MediumFault;
use thiserror::Error;

/// Why a start is refused: what was wanted and not there, or the first fault of the image.
#[derive(Clone, Copy, Debug, PartialEq, Eq, Error)]
pub enum StartFault {
    #[error("out of memory")]
    NoMemory = 1,
    #[error("the medium refused a read")]
    Read = 2,
    #[error("the medium refused a write")]
    Write = 3,
    #[error("the medium refused a flush")]
    Flush = 4,
    /// Sector 0 is no super.
    #[error("no super")]
    BadSuper = 5,
    /// The super is of another version.
    #[error("another version")]
    BadVersion = 6,
    /// A size is out of its limits, or the medium is too short for the sizes.
    #[error("bad sizes")]
    BadSize = 7,
    /// Sector 1 is no head.
    #[error("no head")]
    BadHead = 8,
    /// No stamp is left for the next record.
    #[error("the stamps are used up")]
    StampsUsedUp = 9,
    /// The log of format 1 has too few sectors for a slot of format 2: fewer than 5 slots.
    #[error("the log is too small for format 2")]
    LogTooSmall = 10,
}

impl From<MediumFault> for StartFault {
    ghost use Rattle.std.specs.Prelude.{◌≡◌};
    ghost use Rattle.recovery.specs.Causes.{start_fault_of};

    ghost from_gives = { λ fault start. start ≡ start_fault_of fault };

    fn from(fault: MediumFault) -> StartFault {
        match fault {
            MediumFault::Read => StartFault::Read,
            MediumFault::Write => StartFault::Write,
            MediumFault::Flush => StartFault::Flush,
        }
    }
}
