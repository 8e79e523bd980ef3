//! What a device was asked for last.
use crate::ask::DeviceRead;

/// What a device was asked for last, and has not told done.
#[derive(Clone, Copy, Debug, PartialEq, Eq)]
pub enum Asked {
    Nothing,
    /// So many calls of the outbox: one flush, or writes to neighbouring sectors.
    Calls(usize),
    /// Sectors, which a read lacks or may lack.
    Read(DeviceRead),
    /// It refused so many calls, behind which so many waited that it is not asked for. It is asked
    /// for nothing until the next start.
    Refused(usize, usize),
}
