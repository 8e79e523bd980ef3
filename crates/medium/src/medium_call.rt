//! A call of a medium, told before it is made, and the one place where calls are made.
ghost use Rattle.medium.specs.Performed.{IsWithin, Performed};

use crate::{Medium, MediumFault};

/// A call that goes with one sector of 512 bytes, which whoever makes the call lends.
#[derive(Clone, Copy, Debug, PartialEq, Eq)]
pub enum Call {
    /// Reads this sector into the lent one.
    Read(u64),
    /// Writes the lent sector to this one.
    Write(u64),
    /// Makes all sectors durable.
    Flush,
}

/// Makes the call with this sector.
///
/// # Errors
///
/// As the medium.
pub fn perform<M: Medium>(m: &mut M, call: Call, sector: &mut [u8; 512]) -> Result<(), MediumFault>
    requires { IsWithin (M.state m.old).size call }
    ensures performed { Performed call sector.old sector.new result (M.state m.old)
        (M.state m.new) }
    ensures follows { M.follows m.old m.new }
{
    match call {
        Call::Read(place) => m.read(place, sector),
        Call::Write(place) => m.write(place, sector),
        Call::Flush => m.flush(),
    }
}
