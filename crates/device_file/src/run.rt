//! Neighbouring sectors that are written at once.
ghost use Rattle.std.specs.Prelude.{◌≡◌, ◌≤◌, ◌<◌, ◌+◌, ◌∷◌, ◌++◌, ◌↔◌};
ghost use Rattle.std.specs.Prelude.{length, [], true, IfSome, IsSome, IsNone, IsTrue, vec_capacity};
ghost use Rattle.std.specs.Bool.{OnTrue, OnFalse};
ghost use Rattle.device_file.specs.Asked.{writes_of, GoesOn};
ghost use Rattle.device_file.specs.InRuns.{IsNoMore};
ghost use Rattle.window.specs.declared.call.DeviceCall.TheVariants.{Write};

use std::alloc::{AllocError, Global};
use window::SectorWrite;

/// The most sectors of a run.
pub(crate) const RUN_SECTORS: usize = 256;

/// Blocks of neighbouring sectors, from the first on: none, or up to 256.
#[derive(Drop)]
pub struct Run {
    pub(crate) first: u64,
    pub(crate) blocks: Vec<[u8; 512]>,
    ghost room: { 256 ≤ vec_capacity blocks },
    ghost few: { length blocks.items ≤ 256 },
}

impl Run {
    /// A run of no blocks, with the memory for all that it may have.
    ///
    /// # Errors
    ///
    /// Memory ran out.
    pub fn new(alloc: Global) -> Result<Run, AllocError> {
        Ok(Run {
            first: 0,
            blocks: Vec::with_capacity(alloc, RUN_SECTORS)?,
        })
    }

    /// Lets go of its blocks.
    pub(crate) fn clear(&mut self)
        ensures { self.new.blocks.items ≡ [] }
    {
        self.blocks.clear();
    }

    /// Whether it has no blocks.
    pub(crate) fn is_empty(&self) -> bool
        ensures { IsTrue result ↔ (self.now.blocks.items ≡ []) }
    {
        self.blocks.is_empty()
    }

    /// Takes one write more, where it is of the sector behind the last one and there is room.
    /// False, and nothing changes, where it is not.
    pub(crate) fn take(&mut self, write: &SectorWrite) -> bool
        ensures taken { OnTrue result (writes_of self.new.first self.new.blocks.items
            ≡ writes_of self.old.first self.old.blocks.items ++ Write write.now ∷ []) }
        ensures left { OnFalse result (self.new ≡ self.old) }
        ensures no_more { OnFalse result
            (IsNoMore self.old.first self.old.blocks.items write.now.sector) }
        ensures first { self.old.blocks.items ≡ [] → result ≡ true }
    {
        let Some(first) = self.first_with(write.sector) else {
            return false;
        };
        self.first = first;
        self.blocks.push_reserved(write.block);
        true
    }

    // The first sector of the run with this one behind it, where that is a run.
    fn first_with(&self, sector: u64) -> Option<u64>
        ensures some { IfSome result (GoesOn self.now.first self.now.blocks.items sector) }
        ensures none { IsNone result
            → IsNoMore self.now.first self.now.blocks.items sector }
        ensures room { IsSome result → length self.now.blocks.items < 256 }
        ensures first { self.now.blocks.items ≡ [] → IsSome result }
    {
        let count = self.blocks.len();
        if count == 0 {
            return Some(sector);
        }
        if count >= RUN_SECTORS || sector < self.first || sector - self.first != count as u64 {
            return None;
        }
        Some(self.first)
    }
}
