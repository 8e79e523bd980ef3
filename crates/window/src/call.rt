//! What a device is to do.

/// The bytes of a sector.
#[derive(Clone, Copy, Debug, PartialEq, Eq)]
pub struct SectorWrite {
    pub sector: u64,
    pub block: [u8; 512],
}

/// A call that a device is to carry out.
#[derive(Clone, Copy, Debug, PartialEq, Eq)]
pub enum DeviceCall {
    Write(SectorWrite),
    /// All that was written before it is durable when it is done.
    Flush,
}
