//! What hears of a copy while it goes on.

/// What hears how far a copy has come. Nothing of the copy depends on it.
pub trait Meter {
    /// `done` of `all` sectors were read and handed on, since the copy began.
    fn progress(&mut self, done: u64, all: u64);
}
