//! What a machine is at.

/// What a machine is at.
#[derive(Clone, Copy, Debug, PartialEq, Eq)]
pub enum MachineState {
    /// The device has not carried out the calls of the start: no packet is taken.
    Starting,
    Serving,
    /// The device refused a write or a flush: it is asked for nothing until the next start.
    Refused,
}
