//! How the programs tell a file that was refused, and a start: by an exit status, and in words.
ghost use Rattle.std.specs.Prelude.{◌≡◌};
ghost use Rattle.usbdisk.specs.console.Status.{status_of_fault, status_of_start};

use device_file::{FileCall, FileFault};
use recovery::StartFault;
use std::io::ErrorKind;

/// The exit status where a file refuses a call, or has no whole sectors.
pub(crate) fn file_status(fault: FileFault) -> u8
    ensures { result ≡ status_of_fault fault }
{
    match (fault.call, fault.cause) {
        (FileCall::Length, ErrorKind::InvalidData) => 3,
        _ => 4,
    }
}

/// The exit status where a start is refused, as that of the same text where a file refuses.
pub(crate) fn start_status(fault: StartFault) -> u8
    ensures { result ≡ status_of_start fault }
{
    match fault {
        StartFault::NoMemory => 5,
        StartFault::Read => 4,
        StartFault::Write => 4,
        StartFault::Flush => 4,
        _ => 3,
    }
}

/// The cause of a file's refusal in words.
pub(crate) fn file_text(fault: FileFault) -> &'static str {
    match (fault.call, fault.cause) {
        (FileCall::Open, ErrorKind::NotFound) => "no such file",
        (FileCall::Open, ErrorKind::AlreadyExists) => "it is there; --replace replaces it",
        (FileCall::Open, ErrorKind::PermissionDenied) => "opening it is not allowed",
        (FileCall::Lock, ErrorKind::WouldBlock) => "another program has it locked",
        (FileCall::Length, ErrorKind::InvalidInput) => "it is no plain file",
        (FileCall::Length, ErrorKind::InvalidData) => "not an image: no whole sectors",
        (FileCall::Length, ErrorKind::FileTooLarge) =>
            "the file system has no files of this length",
        (FileCall::Read, ErrorKind::UnexpectedEof) => "it is too short",
        (_, ErrorKind::StorageFull) => "no space is left",
        (call, _) => call_text(call),
    }
}

/// The cause of a refusal of a plain file that is read in words.
pub(crate) fn plain_text(fault: FileFault) -> &'static str {
    match (fault.call, fault.cause) {
        (FileCall::Length, ErrorKind::InvalidData) => "its length is no multiple of 512 bytes",
        _ => file_text(fault),
    }
}

// What failed, where nothing more is told.
fn call_text(call: FileCall) -> &'static str {
    match call {
        FileCall::Open => "it was not opened",
        FileCall::Lock => "it was not locked",
        FileCall::Length => "its length was not told or changed",
        FileCall::Read => "it was not read",
        FileCall::Write => "it was not written",
        FileCall::Sync => "it was not synchronised",
    }
}

/// The fault of an image in words, where a start is refused. A window over its first sectors
/// refuses no call.
pub(crate) fn start_text(fault: StartFault) -> &'static str {
    match fault {
        StartFault::BadSuper => "not an image",
        StartFault::BadVersion => "an image of a later version",
        StartFault::BadSize => "the sizes in sector 0 do not fit the file",
        StartFault::BadHead => "a broken head in sector 1",
        StartFault::StampsUsedUp => "the stamps are used up",
        StartFault::LogTooSmall => "the log is too small for format 2",
        StartFault::NoMemory => "no memory",
        StartFault::Read => "it was not read",
        StartFault::Write => "it was not written",
        StartFault::Flush => "it was not synchronised",
    }
}

/// The same of an image that was read whole, but for its number.
pub(crate) fn image_text(fault: StartFault) -> &'static str {
    match fault {
        StartFault::NoMemory => "no memory",
        StartFault::Read | StartFault::Write | StartFault::Flush => "file failed",
        _ => "image refused",
    }
}
