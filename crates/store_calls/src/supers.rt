//! The super with which the first sectors of a device begin, and what is shown by it.
ghost use Rattle.std.specs.Prelude.{◌≡◌};
ghost use Rattle.store_calls.specs.Supers.{FindsSuper, span_of};

use journal::{LogFormat, Super};
use window::SECTOR;

// How many sectors the device reads by one call at most.
const MOST_READ: u64 = 240;

/// The super with which these first sectors begin, if they do. Sector 0 lies on the stack here
/// alone.
#[inline(never)]
pub fn super_of(near: &[u8]) -> Option<Super>
    ensures { FindsSuper near.now result }
{
    if near.len() < SECTOR {
        return None;
    }
    let mut sector = [0; SECTOR];
    sector.copy_from_slice(&near[..SECTOR]);
    Super::decode(&sector).ok()
}

/// How many sectors a medium under an image of this format is shown at a time at most: those of a
/// slot, which a start is shown, as far as one call of the device reads them, and so those of a
/// read.
pub fn span_of(format: LogFormat) -> u32
    ensures { result ≡ span_of format }
{
    format.slot_sectors().min(MOST_READ) as u32
}
