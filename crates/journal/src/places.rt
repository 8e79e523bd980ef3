//! Where the slots of the log stand.
ghost use Rattle.std.specs.Prelude.{◌≡◌, ◌<◌, ◌%◌};

/// The first sector behind the super and the head.
pub(crate) const FIRST_SLOT: u64 = 2;

/// The slot in which the record with this stamp stands.
pub fn slot_of(stamp: u64, slots: u64) -> u64
    requires { 0 < slots }
    ensures { result ≡ stamp % slots }
{
    stamp % slots
}
