//! The errors of a script.
ghost use Rattle.std.specs.Prelude.{◌≡◌};

use crate::console::Refusal;
use crate::runner::read::ReadFault;
use bot_machine::{StartError, StartFault};
use medium::Medium;
use thiserror::Error;

/// Why a script was not played to its end.
#[derive(Clone, Copy, Debug, PartialEq, Eq, Error)]
pub enum ScriptFault {
    /// The first line that is none of a script, counted from 1. Nothing was played.
    #[error("line {0}: not a script line")]
    Line(u64),
    /// The script has more than 1,048,576 bytes. Nothing was played.
    #[error("script too long")]
    TooLong,
    /// The disk did not start.
    #[error("start: {0}")]
    Start(StartFault),
    /// Memory ran out outside a start. Nothing was played.
    #[error("no memory")]
    NoMemory,
    /// The script's reader failed. Nothing was played.
    #[error("the script was not read")]
    Reader,
    /// The writer failed. The disk played the events before, and the one whose answer was not
    /// written.
    #[error("an answer was not written")]
    Writer,
}

/// Why a script was not played to its end, and the medium of its disk.
#[derive(Drop)]
pub struct ScriptError<M: Medium> {
    pub fault: ScriptFault,
    pub medium: M,
}

impl<M: Medium> From<StartError<M>> for ScriptError<M> {
    ghost use Rattle.usbdisk.specs.declared.runner.fault.ScriptFault.TheVariants.{Start};

    ghost from_gives = { λ error stopped.
        stopped ≡ record { fault = Start error.fault; medium = error.medium } };

    fn from(error: StartError<M>) -> ScriptError<M> {
        ScriptError {
            fault: ScriptFault::Start(error.fault),
            medium: error.medium,
        }
    }
}

impl From<StartFault> for ScriptFault {
    ghost use Rattle.usbdisk.specs.declared.runner.fault.ScriptFault.TheVariants.{Start};

    ghost from_gives = { λ fault refused. refused ≡ Start fault };

    fn from(fault: StartFault) -> ScriptFault {
        ScriptFault::Start(fault)
    }
}

impl From<ReadFault> for ScriptFault {
    ghost use Rattle.usbdisk.specs.runner.Refused.{read_fault};

    ghost from_gives = { λ fault refused. refused ≡ read_fault fault };

    fn from(fault: ReadFault) -> ScriptFault {
        match fault {
            ReadFault::TooLong => ScriptFault::TooLong,
            ReadFault::NoMemory => ScriptFault::NoMemory,
            ReadFault::Reader => ScriptFault::Reader,
        }
    }
}

impl From<ScriptFault> for Refusal {
    ghost use Rattle.usbdisk.specs.runner.Refused.{refusal_of_fault};

    ghost from_gives = { λ fault e. e ≡ refusal_of_fault fault };

    fn from(fault: ScriptFault) -> Refusal {
        match fault {
            ScriptFault::Line(number) => Refusal::Line(number),
            ScriptFault::TooLong => Refusal::TooLong,
            ScriptFault::Start(fault) => Refusal::ImageFault(fault),
            ScriptFault::NoMemory => Refusal::NoMemory,
            ScriptFault::Reader | ScriptFault::Writer => Refusal::FileFailed,
        }
    }
}
