//! What the device is to read ahead, and what became of a read.
use window::DeviceRead;

/// The sectors that the device is to read ahead, or what became of its last read since a packet.
#[derive(Clone, Copy, Debug, PartialEq, Eq)]
pub enum Lack {
    Nothing,
    /// No READ lacks these sectors yet: they are to be read ahead, or the device reads them.
    Ahead(DeviceRead),
    /// A read ahead has ended: nothing is read ahead before the next packet.
    Ended,
    /// The device could not read these home sectors, which a READ lacks.
    Unread(DeviceRead),
}
