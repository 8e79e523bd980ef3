//! A medium in memory whose unflushed writes can be seen.
ghost use Rattle.std.specs.Prelude.{◌≡◌, [], IfOk};
ghost use Rattle.medium.specs.Power.{powered};
ghost use Rattle.medium.specs.Tally.{none};
ghost use Rattle.page.specs.Cuts.{Settles};
ghost use Rattle.medium.specs.Writes.{keeps};

use medium::{Kept, Medium, MediumFault, SimError, SimMedium, Switch};
use std::alloc::Global;
use std::marker::Model;

/// A write that no flush has made durable yet.
#[derive(Drop)]
pub(crate) struct Waiting {
    pub(crate) sector: u64,
    pub(crate) block: [u8; 512],
}

impl Model for Waiting {
    ghost use Rattle.medium.specs.declared.unflushed.UnflushedWrite.{UnflushedWrite};

    ghost Value = { UnflushedWrite };

    ghost view = { λ w. record { sector = w.sector; block = w.block } };
}

/// A simulated medium, with a list of its unflushed writes.
#[derive(Drop)]
pub(crate) struct Watched {
    sim: SimMedium,
    waiting: Vec<Waiting>,
}

impl Model for Watched {
    ghost use Rattle.std.specs.Prelude.{◌≡◌, ◌≤◌, vec_capacity};
    ghost use Rattle.medium.specs.Sim.{Sim};

    ghost Value = { Sim };

    ghost view = { λ w. w.sim };

    ghost invariant = { λ w. (w.waiting.items ≡ w.sim.unflushed)
        × (w.sim.room ≤ vec_capacity w.waiting) };
}

impl Watched {
    /// A medium of these bytes, as `SimMedium::new` makes it.
    ///
    /// # Errors
    ///
    /// Those of `SimMedium::new`.
    pub(crate) fn new(alloc: Global, image: Vec<u8>, room: usize) -> Result<Watched, SimError>
        ensures { IfOk result (λ m. m ≡ record {
          flushed = image.items;
          unflushed = [];
          room = room;
          power = powered;
          flushes = 0;
          calls = 0;
          made = none;
          refused = none;
          without_room = 0;
        }) }
    {
        let sim = SimMedium::new(alloc, image, room)?;
        let Ok(waiting) = Vec::with_capacity(alloc, room) else {
            return Err(SimError::NoMemory);
        };
        Ok(Watched { sim, waiting })
    }

    /// Cuts the power as `SimMedium::cut` does.
    pub(crate) fn cut(&mut self, kept: &Kept)
        ensures { Settles (keeps kept.now) self.old self.new }
    {
        self.sim.cut(kept);
        self.waiting.clear();
    }

    /// The flushed bytes of all sectors.
    pub(crate) fn durable(&self) -> &[u8]
        ensures { result.now ≡ self.now.flushed }
    {
        self.sim.image()
    }

    /// The unflushed writes, in order of issue.
    pub(crate) fn waiting(&self) -> &[Waiting]
        ensures { result.now ≡ self.now.unflushed }
    {
        &self.waiting
    }

    /// How many flushes happened, up to the greatest number of the type.
    pub(crate) fn flushes(&self) -> u64
        ensures { result ≡ self.now.flushes }
    {
        self.sim.flushes()
    }

    /// Whether the power is off.
    pub(crate) fn is_off(&self) -> bool
        ensures { result ≡ self.now.power.off }
    {
        self.sim.is_off()
    }
}

impl Medium for Watched {
    ghost use Rattle.std.specs.Prelude.{◌≡◌, ◌⊎◌, ◌<◌, true, is_ok, OnOk, OnErr};
    ghost use Rattle.medium.specs.Medium.{Stays, Holds, Within, Gains, Only, Passes, LooksOnly};
    ghost use Rattle.medium.specs.Sim.{state_of, ComesAfter};
    ghost use Rattle.medium.specs.declared.fault.MediumFault.TheVariants.{Read, Write, Flush};
    ghost use Rattle.medium.specs.SimLaws.{is_sound, comes_after_itself, comes_after_through};

    ghost state = { state_of };

    ghost follows = { ComesAfter };

    ghost sound = { is_sound };

    ghost follows_itself = { comes_after_itself };

    ghost follows_through = { comes_after_through };

    fn sectors(&self) -> u64 {
        self.sim.sectors()
    }

    fn read(&mut self, sector: u64, to: &mut [u8; 512]) -> Result<(), MediumFault> {
        self.sim.read(sector, to)
    }

    fn write(&mut self, sector: u64, from: &[u8; 512]) -> Result<(), MediumFault> {
        self.sim.write(sector, from)?;
        self.waiting.push_reserved(Waiting {
            sector,
            block: *from,
        });
        Ok(())
    }

    fn flush(&mut self) -> Result<(), MediumFault> {
        self.sim.flush()?;
        self.waiting.clear();
        Ok(())
    }
}

impl Switch for Watched {
    ghost use Rattle.std.specs.Prelude.{◌<◌};
    ghost use Rattle.medium.specs.Moments.{IsUnchanged};
    ghost use Rattle.medium.specs.Sim.{state_of, IsFused, IsFailing};

    ghost fused = { IsFused };

    ghost failing = { IsFailing };

    fn fuse(&mut self, writes: u64) {
        self.sim.fuse(writes);
    }

    fn fail(&mut self, call: u64) {
        self.sim.fail(call);
    }
}
