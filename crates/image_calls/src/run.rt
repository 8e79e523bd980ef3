//! The sectors of a device that were read last.
ghost use Rattle.std.specs.Prelude.{◌≡◌, ◌≤◌, length};

use window::Sectors;

/// How many sectors are read at a time at most.
pub(crate) const MOST: usize = 64;

/// Sectors that lie one behind the other on a device, as it holds them.
#[derive(Drop)]
pub struct Run {
    // Room for 64 sectors: the held ones lie at its front.
    pub(crate) sectors: Sectors,
    pub(crate) first: u64,
    pub(crate) held: u64,
    ghost room: { length sectors.bytes.items ≡ 32768 },
    ghost fits: { held ≤ 64 },
}
