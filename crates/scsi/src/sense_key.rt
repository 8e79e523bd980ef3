//! Sense keys.

/// What kind of condition a sense reports (SPC-4 4.5.6).
#[derive(Clone, Copy, Debug, PartialEq, Eq)]
pub enum SenseKey {
    NoSense = 0,
    MediumError = 3,
    HardwareError = 4,
    IllegalRequest = 5,
    UnitAttention = 6,
}
