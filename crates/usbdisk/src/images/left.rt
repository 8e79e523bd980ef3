//! What a command has left of its files.
ghost use Rattle.std.specs.Prelude.{◌≡◌};
ghost use Rattle.device_file.specs.Carried.{AreCalls};

use crate::console::{LeftFile, foresee};

/// The files that a command opened or made, exactly as they were left.
#[derive(Default, Drop)]
pub struct LeftFiles {
    /// The file of the image.
    pub file: LeftFile,
    /// The plain file of an export or an import.
    pub raw: LeftFile,
}

impl LeftFiles {
    /// The file of the image, and the plain one.
    pub(crate) fn new(file: LeftFile, raw: LeftFile) -> LeftFiles
        ensures { result ≡ record { file = file; raw = raw } }
    {
        LeftFiles { file, raw }
    }

    /// Does nothing. Its contract says by which calls of the system the files did what they were
    /// asked.
    pub(crate) fn foresee(&self)
        ensures { AreCalls self.now.file × AreCalls self.now.raw }
    {
        foresee(&self.file);
        foresee(&self.raw);
    }
}
