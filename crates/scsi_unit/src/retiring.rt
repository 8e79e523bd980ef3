//! When a unit sends the oldest record of its log home.

/// When the oldest record of the log goes home, so that its slot is free for a record that is to
/// come. A host sees nothing of it, and a cut leaves the same whichever it is.
#[derive(Clone, Copy, Debug, PartialEq, Eq)]
pub enum Retiring {
    /// Where the next record finds no slot free: its blocks go home with a flush, and the head past
    /// it with a flush, before the next record is begun.
    Late,
    /// Ahead of the flush of the next record, which then covers it too, where fewer slots are free
    /// than three. It needs format 2 and three slots; else it is `Late`.
    Ahead,
    /// As `Ahead`, over a log that keeps the blocks of its records in memory and reads none back:
    /// those of so many records, one at least, and no more stand in it at once. Where these are
    /// fewer than three, or in format 1, they go home as `Late` has it.
    Kept(u8),
}
