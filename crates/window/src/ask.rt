//! What a device is to do next.

/// Sectors that a device is to read: `count` of them, from `first` on.
#[derive(Clone, Copy, Debug, PartialEq, Eq)]
pub struct DeviceRead {
    pub first: u64,
    pub count: u32,
}

/// What a device is to do next.
#[derive(Clone, Copy, Debug, PartialEq, Eq)]
pub enum DeviceAsk {
    /// Nothing now.
    Nothing,
    /// To write `count` sectors from `first` on, with the bytes at the front of the buffer.
    Write { first: u64, count: usize },
    /// To make all that it wrote durable.
    Flush,
    /// To read these sectors.
    Read(DeviceRead),
}
