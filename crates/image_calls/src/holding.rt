//! Sectors that were read are held, and let go.
ghost use Rattle.std.specs.Prelude.{◌≡◌, ◌/◌, ◌≤◌, length, drop, ◌++◌, IfSome};
ghost use Rattle.image_calls.specs.Runs.{LoadsHeld, HoldsRead, LetsGo};

use crate::run::{MOST, Run};
use std::alloc::Global;
use window::{SECTOR, Sectors};

impl Run {
    /// Room for a run, which holds nothing: 32 KB. None where there is no memory.
    pub fn new(alloc: Global) -> Option<Run>
        ensures { IfSome result (λ run. run.held ≡ 0) }
    {
        let Ok(bytes) = vec![in alloc; 0u8; MOST * SECTOR] else {
            return None;
        };
        Some(Run {
            sectors: Sectors { bytes },
            first: 0,
            held: 0,
        })
    }

    /// Copies a sector out, where it is held.
    pub(crate) fn load(&self, sector: u64, to: &mut [u8; 512]) -> bool
        ensures { LoadsHeld self.now sector to.old result to.new }
    {
        if sector < self.first || self.held <= sector - self.first {
            return false;
        }
        self.sectors.load(sector - self.first, to);
        true
    }

    /// It holds these sectors alone, from the first on.
    pub(crate) fn hold(&mut self, first: u64, bytes: &[u8])
        requires { length bytes.now ≤ 32768 }
        ensures { HoldsRead first bytes.now self.old self.new }
    {
        lay(&mut self.sectors.bytes, bytes);
        self.first = first;
        self.held = (bytes.len() / SECTOR) as u64;
    }

    /// It holds none from this sector on.
    pub(crate) fn let_go(&mut self, sector: u64)
        ensures { LetsGo sector self.old self.new }
    {
        if self.first <= sector {
            self.held = self.held.min(sector - self.first);
        }
    }
}

// Copies what was read over the front of the room.
fn lay(room: &mut [u8], bytes: &[u8])
    requires { length bytes.now ≤ length room.old }
    ensures { room.new ≡ bytes.now ++ drop (length bytes.now) room.old }
{
    room[..bytes.len()].copy_from_slice(bytes);
}
