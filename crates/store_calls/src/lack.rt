//! What the device of a store is to read, and what became of it.
use window::DeviceRead;

/// The sectors that a read lacks.
#[derive(Clone, Copy, Debug, PartialEq, Eq)]
pub enum Lack {
    Nothing,
    /// They are to be read.
    Wanted(DeviceRead),
    /// The device could not read them.
    Unread(DeviceRead),
}
