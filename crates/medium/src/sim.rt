//! A medium in memory, whose power can be cut.
ghost use Rattle.std.specs.Prelude.{◌≡◌, ◌≢◌, ◌⊎◌, ◌%◌, ◌↔◌, [], length, IfOk, IfSome, IsErrOf};
ghost use Rattle.medium.specs.Medium.{CutLeaves};
ghost use Rattle.medium.specs.Moments.{IsFlushed};
ghost use Rattle.medium.specs.Power.{powered};
ghost use Rattle.medium.specs.Tally.{none};
ghost use Rattle.medium.specs.Sim.{state_of, fits, IsAdmitted, IsCut};
ghost use Rattle.medium.specs.Writes.{keeps};

use crate::count::Count;
use crate::fault::MediumFault;
use crate::kept::Kept;
use crate::medium::Medium;
use crate::power::Power;
use crate::sectors::{SECTOR, append, load_after, settle};
use crate::switch::Switch;
use crate::tally::Calls;
use crate::unflushed::UnflushedWrite;
use std::alloc::Global;
use std::marker::Model;
use thiserror::Error;

/// Why no medium was made.
#[derive(Error, Clone, Copy, Debug, PartialEq, Eq)]
pub enum SimError {
    #[error("the length is not that of one or more sectors")]
    BadLength = 1,
    #[error("out of memory")]
    NoMemory = 2,
}

/// Sectors in memory: the flushed bytes, and the writes since, in order of issue.
/// After `new` no call but `copy` takes memory.
#[derive(Drop)]
pub struct SimMedium {
    bytes: Vec<u8>,
    writes: Vec<UnflushedWrite>,
    room: usize,
    power: Power,
    flushes: u64,
    calls: Count,
    made: Calls,
    refused: Calls,
    without_room: Count,
}

impl Model for SimMedium {
    ghost use Rattle.medium.specs.Sim.{Sim};

    ghost Value = { Sim };

    ghost use Rattle.medium.specs.SimView.{view_of, Invariant};

    ghost view = { view_of };

    ghost invariant = { Invariant };
}

impl SimMedium {
    /// A medium of these bytes, all flushed, with room for `room` unflushed writes.
    ///
    /// # Errors
    /// `BadLength` where the length is 0 or no multiple of 512, and otherwise `NoMemory` where the
    /// room could not be had.
    pub fn new(alloc: Global, image: Vec<u8>, room: usize) -> Result<SimMedium, SimError>
        ensures ok { IfOk result (λ m. m ≡ record {
          flushed = image.items;
          unflushed = [];
          room = room;
          power = powered;
          flushes = 0;
          calls = 0;
          made = none;
          refused = none;
          without_room = 0;
        }) }
        ensures length { IsErrOf result SimError.BadLength
            ↔ ((length image.items ≡ 0) ⊎ (length image.items % 512 ≢ 0)) }
    {
        if image.is_empty() || image.len() % SECTOR != 0 {
            return Err(SimError::BadLength);
        }
        let Ok(writes) = Vec::with_capacity(alloc, room) else {
            return Err(SimError::NoMemory);
        };
        Ok(SimMedium {
            bytes: image,
            writes,
            room,
            power: Power::on(),
            flushes: 0,
            calls: Count::new(),
            made: Calls::new(),
            refused: Calls::new(),
            without_room: Count::new(),
        })
    }

    /// A medium in the same state: its bytes, the unflushed writes, the room, the power with fuse
    /// and failure, and the counts. `None` for want of memory.
    pub fn copy(&self, alloc: Global) -> Option<SimMedium>
        ensures { IfSome result (λ m. m ≡ self.now) }
    {
        let bytes = Vec::from_slice(alloc, &self.bytes).ok()?;
        let mut writes = Vec::with_capacity(alloc, self.room).ok()?;
        append(&mut writes, &self.writes);
        Some(SimMedium {
            bytes,
            writes,
            room: self.room,
            power: self.power,
            flushes: self.flushes,
            calls: self.calls.copy(),
            made: self.made.copy(),
            refused: self.refused.copy(),
            without_room: self.without_room.copy(),
        })
    }

    /// Cuts the power and turns it on again. Of the unflushed writes the kept ones are applied in
    /// order of issue, and the others are lost. Fuse and failure are disarmed. It takes no memory.
    pub fn cut(&mut self, kept: &Kept)
        ensures cut { IsCut (keeps kept.now) self.old self.new }
        ensures allowed { CutLeaves (state_of self.old).may_leave (state_of self.new).content }
        ensures flushed { IsFlushed (state_of self.new) }
        ensures size { (state_of self.new).size ≡ (state_of self.old).size }
    {
        settle(&mut self.bytes, &mut self.writes, kept);
        self.power = Power::on();
    }

    /// Whether the power is off, so that every call is refused until a cut.
    pub fn is_off(&self) -> bool
        ensures { result ≡ self.now.power.off }
    {
        self.power.off
    }

    /// How many flushes happened so far, up to the greatest number of the type.
    pub fn flushes(&self) -> u64
        ensures { result ≡ self.now.flushes }
    {
        self.flushes
    }

    /// How many writes no flush has made durable yet.
    pub fn unflushed(&self) -> usize
        ensures { result ≡ length self.now.unflushed }
    {
        self.writes.len()
    }

    /// The flushed bytes of all sectors, one after the other.
    pub fn image(&self) -> &[u8]
        ensures { result.now ≡ self.now.flushed }
    {
        &self.bytes
    }

    // Whether there is room for one more unflushed write.
    fn has_room(&self) -> bool
        ensures { result ≡ fits self.now }
    {
        self.writes.len() < self.room
    }

    // Whether a call of this kind happens, where there is room for it or not. It is counted.
    fn admit(&mut self, kind: MediumFault, fits: bool) -> bool
        ensures { IsAdmitted kind fits result self.old self.new }
    {
        let happens = self.power.admit(kind, fits);
        self.calls = self.calls.next();
        self.made.add(kind);
        if !happens {
            self.refused.add(kind);
        }
        if !fits {
            self.without_room = self.without_room.next();
        }
        happens
    }
}

impl Medium for SimMedium {
    ghost use Rattle.std.specs.Prelude.{◌≡◌, ◌⊎◌, ◌<◌, true, is_ok, OnOk, OnErr};
    ghost use Rattle.medium.specs.Medium.{Stays, Holds, Within, Gains, Only, Passes, LooksOnly};
    ghost use Rattle.medium.specs.Power.{admits};
    ghost use Rattle.medium.specs.Sim.{state_of, fits, after_call, after_write, IsFlush};
    ghost use Rattle.medium.specs.Sim.{ComesAfter};
    ghost use Rattle.medium.specs.declared.fault.MediumFault.TheVariants.{Read, Write, Flush};
    ghost use Rattle.medium.specs.SimLaws.{is_sound, comes_after_itself, comes_after_through};

    ghost state = { state_of };

    ghost follows = { ComesAfter };

    ghost sound = { is_sound };

    ghost follows_itself = { comes_after_itself };

    ghost follows_through = { comes_after_through };

    fn sectors(&self) -> u64 {
        (self.bytes.len() / SECTOR) as u64
    }

    fn read(&mut self, sector: u64, to: &mut [u8; 512]) -> Result<(), MediumFault>
        requires { sector < (state_of self.old).size }
        ensures exact { self.new ≡ after_call self.old Read true }
        ensures happens { is_ok result ≡ admits self.old.power Read true }
        ensures ok { OnOk result (to.new ≡ (state_of self.old).content sector) }
        ensures content { Stays (state_of self.old).content (state_of self.new).content }
        ensures sets { Within (state_of self.new).may_leave (state_of self.old).may_leave }
        ensures passes { Passes Read result (state_of self.old) (state_of self.new) }
        ensures follows { ComesAfter self.old self.new
            × LooksOnly (λ s. s ≡ sector) (state_of self.old) (state_of self.new) }
    {
        if !self.admit(MediumFault::Read, true) {
            return Err(MediumFault::Read);
        }
        load_after(&self.bytes, &self.writes, sector, to);
        Ok(())
    }

    fn write(&mut self, sector: u64, from: &[u8; 512]) -> Result<(), MediumFault>
        requires { sector < (state_of self.old).size }
        ensures exact { self.new ≡ after_write self.old sector from.now }
        ensures happens { is_ok result ≡ admits self.old.power Write (fits self.old) }
        ensures ok { OnOk result
            (Holds sector from.now (state_of self.old).content (state_of self.new).content) }
        ensures err { OnErr result (Stays (state_of self.old).content (state_of self.new).content
            ⊎ Holds sector from.now (state_of self.old).content (state_of self.new).content) }
        ensures sets { Gains sector from.now
            (state_of self.old).may_leave (state_of self.new).may_leave }
        ensures passes { Passes Write result (state_of self.old) (state_of self.new) }
        ensures follows { ComesAfter self.old self.new }
    {
        let fits = self.has_room();
        if !self.admit(MediumFault::Write, fits) {
            return Err(MediumFault::Write);
        }
        self.writes.push_reserved(UnflushedWrite {
            sector,
            block: *from,
        });
        Ok(())
    }

    fn flush(&mut self) -> Result<(), MediumFault>
        ensures exact { OnOk result (IsFlush self.old self.new) }
        ensures refused { OnErr result (self.new ≡ after_call self.old Flush true) }
        ensures happens { is_ok result ≡ admits self.old.power Flush true }
        ensures ok { OnOk result (Only (state_of self.old).content (state_of self.new).may_leave) }
        ensures content { Stays (state_of self.old).content (state_of self.new).content }
        ensures sets { Within (state_of self.new).may_leave (state_of self.old).may_leave }
        ensures passes { Passes Flush result (state_of self.old) (state_of self.new) }
        ensures follows { ComesAfter self.old self.new }
    {
        if !self.admit(MediumFault::Flush, true) {
            return Err(MediumFault::Flush);
        }
        settle(&mut self.bytes, &mut self.writes, &Kept::All);
        self.flushes = self.flushes.saturating_add(1);
        Ok(())
    }
}

impl Switch for SimMedium {
    ghost use Rattle.std.specs.Prelude.{◌≡◌, ◌<◌};
    ghost use Rattle.medium.specs.Moments.{IsUnchanged};
    ghost use Rattle.medium.specs.Sim.{state_of, IsFused, IsFailing, ComesAfter};

    ghost fused = { IsFused };

    ghost failing = { IsFailing };

    fn fuse(&mut self, writes: u64) {
        self.power.fuse = Some(writes);
    }

    fn fail(&mut self, call: u64) {
        self.power.fail = Some(call);
    }
}
