//! What happens to a disk, and what it answers.
use arrayvec::ArrayVec;

/// What happens to a disk.
#[derive(Debug, Drop, PartialEq, Eq)]
pub enum Event {
    /// A packet to Bulk-Out.
    Out(ArrayVec<u8, 512>),
    /// A token to Bulk-In.
    In,
    /// A setup packet.
    Setup([u8; 8]),
    /// A step in the background.
    Tick,
}

/// What a disk answers to an event.
#[derive(Debug, Drop, PartialEq, Eq)]
pub enum Answer {
    /// The packet or the request is taken.
    Ack,
    /// Nothing now.
    Nak,
    /// The endpoint is halted, or the request is refused.
    Stall,
    /// A packet of Bulk-In.
    Data(ArrayVec<u8, 512>),
    /// One byte, to a request.
    Byte(u8),
    /// Two bytes, to a request.
    Two([u8; 2]),
    /// A step in the background was made.
    Ticked,
    /// The power is off.
    Off,
}
