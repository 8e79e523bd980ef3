//! A medium that remembers, for proofs alone, what it was at each moment. So it meets the clauses
//! on what a cut could have left since an earlier moment by exactly that.
ghost use Rattle.std.specs.Prelude.{◌≡◌, []};

use crate::fault::MediumFault;
use crate::medium::Medium;
use crate::past::Past;
use crate::sim::SimMedium;
use std::marker::Model;

/// A medium in memory. What a cut since an earlier moment may have left is told of that moment, and
/// not of this one.
#[derive(Drop)]
pub struct Remembering {
    medium: SimMedium,
    past: Past,
}

impl Model for Remembering {
    ghost use Rattle.medium.specs.History.{Remembered};

    ghost Value = { Remembered };

    ghost view = { λ m. record { now = m.medium; earlier = m.past.moments } };
}

impl Remembering {
    /// From now on each moment is remembered.
    pub fn new(medium: SimMedium) -> Remembering
        ensures { result ≡ record { now = medium; earlier = [] } }
    {
        Remembering {
            past: Past::new(),
            medium,
        }
    }
}

impl Medium for Remembering {
    ghost use Rattle.medium.specs.History.{state_of, ComesAfter};
    ghost use Rattle.medium.specs.HistoryLaws.{is_sound};
    ghost use Rattle.medium.specs.HistoryLaws.{comes_after_itself, comes_after_through};

    ghost state = { state_of };

    ghost follows = { ComesAfter };

    ghost sound = { is_sound };

    ghost follows_itself = { comes_after_itself };

    ghost follows_through = { comes_after_through };

    fn sectors(&self) -> u64 {
        self.medium.sectors()
    }

    fn read(&mut self, sector: u64, to: &mut [u8; 512]) -> Result<(), MediumFault> {
        self.past = self.past.with(&self.medium);
        self.medium.read(sector, to)
    }

    fn write(&mut self, sector: u64, from: &[u8; 512]) -> Result<(), MediumFault> {
        self.past = self.past.with(&self.medium);
        self.medium.write(sector, from)
    }

    fn flush(&mut self) -> Result<(), MediumFault> {
        self.past = self.past.with(&self.medium);
        self.medium.flush()
    }
}
