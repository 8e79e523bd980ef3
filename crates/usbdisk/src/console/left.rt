//! What a command has left of a file.
ghost use Rattle.device_file.specs.Carried.{AreCalls};

use device_file::SystemFile;
use medium::OpenedFile;
use std::fs::File;

/// A plain file of the system, open and locked.
pub type LockedFile = SystemFile<OpenedFile<File>>;

/// A file that was opened or made, where there is one.
pub type LeftFile = Option<LockedFile>;

/// Does nothing. Its contract says by which calls of the system a file did what it was asked, where
/// one was opened or made.
pub fn foresee(left: &LeftFile)
    ensures { AreCalls left.now }
{
    if let Some(file) = left {
        file.foresee();
    }
}
