//! What the device of a machine was asked for last.
use medium::{Call, MediumFault};

/// What the device was asked for last, and has not told done.
#[derive(Clone, Copy, Debug, PartialEq, Eq)]
pub enum Asked {
    Nothing,
    /// This call.
    At(Call),
    /// It refused a call of this kind. It is asked for nothing more.
    Refused(MediumFault),
}
