//! The turns of the oldest durable record, one after the other.
ghost use Rattle.std.specs.Prelude.{◌≡◌, ◌+◌, ◌<◌, ◌≤◌, true, false, length, MatchOption};
ghost use Rattle.std.specs.Prelude.{ℕ, List, Some};
ghost use Rattle.medium.specs.declared.medium_call.Call.TheVariants.{Read, Write};
ghost use Rattle.journal.specs.Places.{sectors_of};
ghost use Rattle.redo_log.specs.Value.{next_calls, next_sends, of_oldest, IsAway, IsSentHome};
ghost use Rattle.redo_log.specs.Value.{IsRetireStepped, next_turn_flushes};
ghost use Rattle.redo_log.specs.Steps.{CountsStep, BringsOn, TurnsOn};
ghost use Rattle.redo_log.specs.Halfway.{TellsFirst, TellsSecond};
ghost use Rattle.redo_log.specs.Told.{IsFirst, IsSecond, IsOneCall};

use crate::Log;
use crate::firsts::first_kept;
use crate::index::drop_record;
use crate::making::{make, write};
use journal::{Head, copy_place, put_first, slot_of};
use medium::{Call, Medium, MediumFault};

impl Log {
    // Where the next block of the oldest durable record goes, and the block, which is kept.
    fn kept_next(&self) -> (u64, &[u8; 512])
        requires { IsAway self.now × (self.now.keeps ≡ true) }
        ensures { IsFirst self.now (Write result.0) result.1.now }
    {
        let Some(oldest) = self.waiting.front() else {
            unreachable!()
        };
        let home = self.sizes.home_of(oldest[self.turned]);
        (home, self.copies.block(0, self.turned))
    }

    // Where the copy of that block stands in the log.
    fn copy_next(&self) -> u64
        requires { IsAway self.now × (self.now.keeps ≡ false) }
        ensures { (bytes : List ℕ) → IsFirst self.now (Read result) bytes }
    {
        let slot = slot_of(self.head, self.sizes.slots);
        copy_place(self.sizes.format, slot, self.turned)
    }

    // Makes its copy the block, and tells where that goes.
    fn bring(&self, sector: &mut [u8; 512]) -> u64
        requires { IsAway self.now }
        ensures { self.now.keeps ≡ false
            → IsSecond self.now sector.old (Some (Write result)) sector.new }
    {
        let Some(oldest) = self.waiting.front() else {
            unreachable!()
        };
        let number = oldest[self.turned];
        put_first(sector, &first_kept(&self.firsts, 0, self.turned));
        self.sizes.home_of(number)
    }

    // The first call of the next turn of the oldest durable record, a flush where none waits, and
    // in the sector what it writes.
    fn first_call(&self, sector: &mut [u8; 512]) -> Call
        ensures { IsFirst self.now result sector.new }
    {
        let Some(oldest) = self.waiting.front() else {
            return Call::Flush;
        };
        let count = oldest.len();
        if self.turned < count && self.copies.are_kept() {
            let (home, block) = self.kept_next();
            *sector = *block;
            Call::Write(home)
        } else if self.turned < count {
            Call::Read(self.copy_next())
        } else if self.turned == count {
            Call::Flush
        } else {
            *sector = Head::new(self.head + 1).encode();
            Call::Write(1)
        }
    }

    // The call after it, if there is one. The sector is the one that the first call left.
    fn second_call(&self, sector: &mut [u8; 512]) -> Option<Call>
        ensures { IsSecond self.now sector.old result sector.new }
    {
        let oldest = self.waiting.front()?;
        if self.turned < oldest.len() {
            if self.copies.are_kept() {
                return None;
            }
            Some(Call::Write(self.bring(sector)))
        } else if self.turned == oldest.len() {
            None
        } else {
            Some(Call::Flush)
        }
    }

    /// The first call of the next turn of the oldest durable record, and in the sector what it
    /// writes. It is not made yet.
    pub fn turn_first<M: Medium>(&self, sector: &mut [u8; 512]) -> Call
        requires { 0 < of_oldest self.now }
        ensures { TellsFirst M.state self.now result sector.new }
    {
        prove!(!self.waiting.is_empty());
        self.first_call(sector)
    }

    /// The second one, if there is one: else the turn is made. The sector is as the first one left
    /// it.
    pub fn turn_second<M: Medium>(&self, sector: &mut [u8; 512]) -> Option<Call>
        requires { 0 < of_oldest self.now }
        ensures { MatchOption result (IsOneCall self.now)
            (λ call. TellsSecond M.state self.now sector.old call sector.new) }
    {
        prove!(!self.waiting.is_empty());
        self.second_call(sector)
    }

    /// Makes the next turn of the oldest durable record, which is not counted yet.
    pub(crate) fn make_turn<M: Medium>(&self, m: &mut M) -> Result<(), MediumFault>
        requires fits { sectors_of self.now.shape ≤ (M.state m.old).size }
        requires owed { 0 < of_oldest self.now }
        ensures { self.now.dead ≡ false
            → BringsOn M.state M.follows (CountsStep (next_calls self.now) (next_sends self.now)
            (next_turn_flushes self.now) result (M.state m.old) (M.state m.new)) result self.now
            m.old m.new }
    {
        if self.is_away() {
            return self.bring_home(m);
        }
        let mut sector = [0; 512];
        let first = self.turn_first::<M>(&mut sector);
        make(m, first, &mut sector)?;
        let Some(second) = self.turn_second::<M>(&mut sector) else {
            return Ok(());
        };
        make(m, second, &mut sector)
    }

    // Brings the next block of the oldest durable record home, which is not counted yet.
    fn bring_home<M: Medium>(&self, m: &mut M) -> Result<(), MediumFault>
        requires { IsAway self.now × (sectors_of self.now.shape ≤ (M.state m.old).size) }
        ensures { self.now.dead ≡ false → TurnsOn M.state M.follows result self.now m.old m.new }
    {
        if self.copies.are_kept() {
            let (home, block) = self.kept_next();
            return write(m, home, block);
        }
        let mut sector = [0; 512];
        make(m, Call::Read(self.copy_next()), &mut sector)?;
        let home = self.bring(&mut sector);
        write(m, home, &sector)
    }

    /// Counts a block of the oldest durable record that went home. The last one is noted: the flush
    /// of the next record that becomes durable covers it.
    pub(crate) fn count_home(&mut self)
        requires { IsAway self.old }
        ensures { IsSentHome self.old self.new }
    {
        let Some(oldest) = self.waiting.front() else {
            unreachable!()
        };
        let turns = oldest.len();
        self.turned += 1;
        if self.turned < turns {
            return;
        }
        self.homed = self.head;
        self.before = self.head + self.waiting.len() as u64;
    }

    /// Counts a turn of the oldest durable record, which is retired with its last one.
    pub(crate) fn count_turn(&mut self)
        requires { 0 < length self.old.waiting }
        ensures { IsRetireStepped self.old self.new }
    {
        let Some(oldest) = self.waiting.front() else {
            unreachable!()
        };
        let blocks = oldest.len();
        if self.turned < blocks {
            self.count_home();
        } else if self.turned == blocks {
            self.turned += 1;
        } else {
            self.drop_oldest();
        }
    }

    /// Retires the oldest durable record, of which one turn is left.
    pub(crate) fn drop_oldest(&mut self)
        requires { of_oldest self.old ≡ 1 }
        ensures { (self.new.head ≡ self.old.head + 1) × IsRetireStepped self.old self.new }
    {
        let Some(oldest) = self.waiting.front() else {
            unreachable!()
        };
        let slot = slot_of(self.head, self.sizes.slots);
        drop_record(&mut self.index, slot, oldest.as_slice());
        let _ = self.waiting.pop_front();
        let _ = self.firsts.pop_front();
        self.copies.forget();
        self.head += 1;
        self.turned = 0;
        self.homed = 0;
        self.before = 0;
    }
}
