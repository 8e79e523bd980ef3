//! The calls that a log makes of its medium.
ghost use Rattle.journal.specs.Format2.{place_bytes};
ghost use Rattle.medium.specs.Performed.{IsWithin};
ghost use Rattle.medium.specs.declared.medium_call.Call.TheVariants.{Write};
ghost use Rattle.redo_log.specs.Halfway.{CanMake, Makes};

use journal::data_sector2;
use medium::{Call, Medium, MediumFault};

/// Makes the call with this sector, as `perform` does, and right where it is asked for: the
/// compiler sees whose bytes go where there, and copies them once.
///
/// # Errors
///
/// As the medium.
#[inline(always)]
pub(crate) fn make<M: Medium>(
    m: &mut M,
    call: Call,
    sector: &mut [u8; 512],
) -> Result<(), MediumFault>
    requires { CanMake (M.state m.old) call }
    ensures { Makes M.state M.follows call sector.old sector.new result m.old m.new }
{
    match call {
        Call::Read(place) => m.read(place, sector),
        Call::Write(place) => m.write(place, sector),
        Call::Flush => m.flush(),
    }
}

/// Makes a write of these bytes, which are not copied first.
///
/// # Errors
///
/// As the medium.
#[inline(always)]
pub(crate) fn write<M: Medium>(m: &mut M, place: u64, bytes: &[u8; 512]) -> Result<(), MediumFault>
    requires { CanMake (M.state m.old) (Write place) }
    ensures { Makes M.state M.follows (Write place) bytes.now bytes.now result m.old m.new }
{
    m.write(place, bytes)
}

/// Writes the data place of this block in the record with this stamp. Its sector lies on the stack
/// here alone, and under no other call of the medium.
///
/// # Errors
///
/// As the medium.
#[inline(never)]
pub(crate) fn write_stamped<M: Medium>(
    m: &mut M,
    place: u64,
    stamp: u64,
    block: &[u8; 512],
) -> Result<(), MediumFault>
    requires { IsWithin (M.state m.old).size (Write place) }
    ensures { Makes M.state M.follows (Write place) (place_bytes stamp block.now)
        (place_bytes stamp block.now) result m.old m.new }
{
    write(m, place, &data_sector2(stamp, block))
}
