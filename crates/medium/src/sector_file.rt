//! A file that can hold the sectors of an image.
use std::fs::{File, OpenFile};
use std::io;
use std::os::unix::fs::FileExt;

/// A file whose bytes are read and written at their places, and which one holder at a time may have
/// locked.
pub trait SectorFile: FileExt + OpenFile {
    /// Locks the file for this handle, until it is dropped. It does not wait.
    ///
    /// # Errors
    /// Where another handle, of this program or of another one, has the file locked, or the system
    /// knows no locks of it.
    fn try_lock(&self) -> io::Result<()>;
}

impl SectorFile for File {
    fn try_lock(&self) -> io::Result<()> {
        Ok(File::try_lock(self)?)
    }
}
