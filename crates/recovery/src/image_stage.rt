//! How far a new image is written.

/// Which call comes next while a new image is written.
#[derive(Clone, Copy)]
pub(crate) enum ImageStage {
    /// Zeros in place of the super.
    Wipe,
    /// The flush of these.
    FlushWipe,
    /// Zeros to this sector; at the end a flush, where one is wanted, and then the head.
    Zeros(u64, bool),
    /// The flush of the head.
    FlushHead,
    /// The super.
    Super,
    /// The flush of the super.
    FlushSuper,
    /// None: it is made.
    Made,
    /// None: a call was refused.
    Refused,
}
