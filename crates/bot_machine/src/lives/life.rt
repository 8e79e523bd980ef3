//! A start, events, and a cut.
use medium::Kept;
use spec::Event;

/// A life of a disk: it is started, its events come, and its power is cut.
#[derive(Debug, Drop)]
pub struct Life {
    /// A fuse that is armed before the start: how many writes and flushes happen. At the next
    /// one the power goes.
    pub fuse: Option<u64>,
    pub events: Vec<Event>,
    /// Which of the unflushed writes outlive the cut.
    pub kept: Kept,
}
