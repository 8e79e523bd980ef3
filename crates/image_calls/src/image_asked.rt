//! What the device was asked for last.

/// A call that the work on an image makes: it reads nothing.
#[derive(Clone, Copy, Debug, PartialEq, Eq)]
pub enum ImageCall {
    Write,
    Flush,
}

/// What the device was asked for last, and has not told done.
#[derive(Clone, Copy, Debug, PartialEq, Eq)]
pub enum ImageAsked {
    Nothing,
    /// So many calls of this kind: one flush, or writes to neighbouring sectors.
    Calls(ImageCall, usize),
    /// It refused them. It is asked for nothing more.
    Refused(ImageCall, usize),
}
