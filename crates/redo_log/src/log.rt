//! A redo log and its records.
ghost use Rattle.std.specs.Prelude.{◌≡◌, ℕ, ◌+◌, ◌*◌, ◌^◌, ◌<◌, ◌≤◌, ◌↔◌, true, false, length};
ghost use Rattle.std.specs.Prelude.{IsTrue, OnOk, IfOk, IfErr, MatchOption};

use crate::begun::BegunNumbers;
use crate::copies::Copies;
use crate::firsts::{first_kept, keep_firsts};
use crate::index::{Copied, newest};
use crate::room::room_for;
use crate::{LogFault, Progress};
use arrayvec::ArrayVec;
use journal::{Firsts, LoggedCopy, Super, read_copy};
use medium::{Medium, MediumFault};
use std::alloc::Global;
use std::collections::VecDeque;
use std::marker::Model;

// The block numbers of a record.
pub(crate) type Numbers = ArrayVec<u64, 240>;

/// A redo log on a medium, with a record in each slot at most: durable ones that are not retired,
/// and behind them perhaps one under way.
#[derive(Drop)]
pub struct Log {
    pub(crate) sizes: Super,
    // How many records may stand in the log at once.
    pub(crate) ring: u64,
    // The stamp in the durable head, which is that of the oldest record.
    pub(crate) head: u64,
    // The durable records that are not retired, the oldest first.
    pub(crate) waiting: VecDeque<Numbers>,
    // How many turns of the oldest of them are made.
    pub(crate) turned: usize,
    // The first 8 bytes of each block of each record, in format 2: of those that wait, the oldest
    // first, then of the one under way.
    pub(crate) firsts: VecDeque<Firsts>,
    // The bytes of the blocks of each record, if they are kept: in the same order.
    pub(crate) copies: Copies,
    // The stamp of the record whose last block went home ahead, 0 where there was none, and the one
    // that the next durable record had then.
    pub(crate) homed: u64,
    pub(crate) before: u64,
    // The numbers of the record under way, none where none is.
    pub(crate) under_way: BegunNumbers,
    // How many calls of it are made.
    pub(crate) made: Option<usize>,
    // The newest copies of the durable records' blocks.
    pub(crate) index: Vec<Copied>,
    pub(crate) dead: bool,
}

impl Model for Log {
    ghost use Rattle.redo_log.specs.Value.{LogValue};

    ghost Value = { LogValue };

    ghost use Rattle.redo_log.specs.Shown.{shown, Invariant};

    ghost view = { shown };

    ghost invariant = { Invariant };
}

impl Log {
    ghost use Rattle.journal.specs.Formats.{shape_of};
    ghost use Rattle.redo_log.specs.Value.{HasRoom, Owes, HasNoCopy, IsNewestCopy, idle_from};
    ghost use Rattle.redo_log.specs.Value.{empty_from, keeping_from};
    ghost use Rattle.redo_log.specs.Value.{sends_of_oldest, most_retire_sends, IsBatch, entries_of};
    ghost use Rattle.redo_log.specs.Held.{View, HoldsView};
    ghost use Rattle.redo_log.specs.Steps.{IsOn, BeginsRecord, MakesStep, MakesRetireStep};
    ghost use Rattle.redo_log.specs.Steps.{KeepsLog, TellsRetired, ReadsCopy, MakesLog};

    /// A log without records on a medium with this super. Its first record takes the stamp `next`,
    /// and as many may stand in it at once as there are slots. It reads the blocks of its records
    /// back. The memory for the records' block numbers, for their index and, in format 2, for the
    /// first bytes of their blocks is taken here, and none later.
    ///
    /// # Errors
    ///
    /// `NoMemory` alone.
    pub fn idle(alloc: Global, sup: &Super, next: u64) -> Result<Log, LogFault>
        requires least { 1 ≤ next }
        requires most { next < 2 ^ 63 }
        ensures ok { IfOk result (λ log. log ≡ idle_from (shape_of sup.now) next) }
        ensures err { IfErr result (λ fault. fault ≡ LogFault.NoMemory) }
    {
        Log::empty(alloc, sup, next, sup.slots, false)
    }

    /// One that keeps the bytes of the blocks of its records, and reads nothing back. At most
    /// `count` records stand in it at once, and no more than there are slots. The memory for their
    /// blocks is taken here too.
    ///
    /// # Errors
    ///
    /// `NoMemory` alone.
    pub fn keeping(alloc: Global, sup: &Super, next: u64, count: u64) -> Result<Log, LogFault>
        requires { (1 ≤ count) × (1 ≤ next) × (next < 2 ^ 63) }
        ensures { MakesLog (keeping_from (shape_of sup.now) next count) result }
    {
        Log::empty(alloc, sup, next, count.min(sup.slots), true)
    }

    // A log without records, in which so many may stand at once.
    fn empty(alloc: Global, sup: &Super, next: u64, ring: u64, keeps: bool) -> Result<Log, LogFault>
        requires ring { (1 ≤ ring) × (ring ≤ sup.now.slots) }
        requires stamp { (1 ≤ next) × (next < 2 ^ 63) }
        ensures { MakesLog (empty_from (shape_of sup.now) next ring keeps) result }
    {
        let Ok(room) = room_for(alloc, sup.format, ring as usize, keeps) else {
            return Err(LogFault::NoMemory);
        };
        Ok(Log {
            sizes: *sup,
            ring,
            head: next,
            waiting: room.waiting,
            turned: 0,
            firsts: room.firsts,
            copies: room.copies,
            homed: 0,
            before: 0,
            under_way: BegunNumbers::of(&[]),
            made: None,
            index: room.index,
            dead: false,
        })
    }

    /// Whether a fault has made the log useless until the next start.
    pub fn is_dead(&self) -> bool
        ensures { result ≡ self.now.dead }
    {
        self.dead
    }

    /// Whether a record may be begun: none is under way, and there is room for one, which the
    /// durable records take until they are retired.
    #[tactic(auto, using(crate::proofs::RecordSteps::few_of_oldest))]
    pub fn has_room(&self) -> bool
        ensures room { IsTrue result ↔ HasRoom self.now }
        ensures full { result ≡ false → 0 < self.now.steps_left + length self.now.waiting }
        ensures always { self.now.steps_left + self.now.retire_steps_left ≡ 0 → result ≡ true }
        ensures owes { Owes self.now }
        ensures few { sends_of_oldest self.now ≤ most_retire_sends self.now.shape.format }
    {
        self.made.is_none() && (self.waiting.len() as u64) < self.ring
    }

    /// Whether no durable record waits to be retired.
    pub fn is_retired(&self) -> bool
        ensures { TellsRetired result self.now }
    {
        self.waiting.is_empty()
    }

    /// Begins a record of these blocks, 512 bytes for each number. It takes the next stamp,
    /// whatever becomes of it. No call of the medium is made.
    ///
    /// # Errors
    ///
    /// `StampsUsedUp` where the next stamp is 2^63 - 1. The log is dead then.
    pub fn begin(&mut self, numbers: &[u64], bytes: &[u8]) -> Result<(), LogFault>
        requires live { self.old.dead ≡ false }
        requires room { HasRoom self.old }
        requires batch { IsBatch self.old.shape numbers.now bytes.now }
        ensures { BeginsRecord numbers.now bytes.now result self.old self.new }
    {
        if self.head + self.waiting.len() as u64 == (1 << 63) - 1 {
            self.dead = true;
            return Err(LogFault::StampsUsedUp);
        }
        keep_firsts(&mut self.firsts, self.sizes.format, bytes);
        self.copies.keep(bytes);
        self.under_way = BegunNumbers::of(numbers);
        self.made = Some(0);
        Ok(())
    }

    /// Makes the next call of the record under way, which was begun with these numbers and bytes.
    /// In format 1 the calls write the descriptor, the data places in rising order, a flush, the
    /// commit, a flush, and in format 2 the descriptors, the data places, the commit, a flush.
    ///
    /// # Errors
    ///
    /// `Medium` where the medium refused the call. The log is dead then.
    pub fn step<M: Medium>(
        &mut self,
        m: &mut M,
        numbers: &[u64],
        bytes: &[u8],
    ) -> Result<Progress, LogFault>
        requires on { IsOn self.old (M.state m.old) }
        requires under_way { 0 < self.old.steps_left }
        requires numbers { numbers.now ≡ self.old.under_way }
        requires bytes { length bytes.now ≡ 512 * length numbers.now }
        ensures { MakesStep M.state M.follows (entries_of numbers.now bytes.now) result
            self.old self.new m.old m.new }
    {
        let Ok(()) = self.make_step(m, numbers, bytes) else {
            self.stop();
            return Err(LogFault::Medium);
        };
        Ok(self.step_made(numbers))
    }

    /// Makes the next one or two calls that retire the oldest durable record, none where none
    /// waits: each block home, which is read from its data place where it is not kept, a flush, and
    /// the head with a flush.
    ///
    /// # Errors
    ///
    /// `Medium` where the medium refused a call. The log is dead then.
    #[tactic(auto, unfolding(crate::specs::Steps::Unless))]
    pub fn retire_step<M: Medium>(&mut self, m: &mut M) -> Result<(), LogFault>
        requires { IsOn self.old (M.state m.old) }
        // Two calls copy a block, or one writes it that is kept, one flushes, two write the head
        // and flush it.
        ensures { MakesRetireStep M.state M.follows result self.old self.new m.old m.new }
    {
        if self.waiting.is_empty() {
            return Ok(());
        }
        let Ok(()) = self.make_turn(m) else {
            self.stop();
            return Err(LogFault::Medium);
        };
        self.count_turn();
        Ok(())
    }

    /// The slot and the place of the newest logged copy of a block, if a durable record that is
    /// not retired has one.
    pub fn find(&self, block: u64) -> Option<(u64, usize)>
        requires { self.now.dead ≡ false }
        ensures { MatchOption result (HasNoCopy self.now block)
            (λ copy. IsNewestCopy self.now block copy.0 copy.1) }
    {
        newest(&self.index, block)
    }

    /// Reads a copy that `find` gave, by one read. Where the blocks are kept it makes no call.
    ///
    /// # Errors
    ///
    /// `Read` where the medium refused a read. The array may hold anything then.
    pub fn read_copy<M: Medium>(
        &self,
        m: &mut M,
        slot: u64,
        place: usize,
        to: &mut [u8; 512],
    ) -> Result<(), MediumFault>
        requires on { IsOn self.now (M.state m.old) }
        requires copy { (block : ℕ) × IsNewestCopy self.now block slot place }
        ensures ok { (view : View) (block : ℕ) → HoldsView self.now (M.state m.old) view
            → IsNewestCopy self.now block slot place → OnOk result (to.new ≡ view.array block) }
        ensures passes { ReadsCopy M.state self.now.keeps result m.old m.new }
        ensures keeps { KeepsLog M.state M.follows self.now m.old m.new }
    {
        prove!(slot < self.sizes.slots && place < self.sizes.format.limit() as usize);
        // How many records of the ring from the head on stand before the one in this slot.
        let slots = self.sizes.slots;
        let age = (slot + slots - self.head % slots) % slots;
        if self.copies.are_kept() {
            *to = *self.copies.block(age as usize, place);
            return Ok(());
        }
        let first = first_kept(&self.firsts, age as usize, place);
        let copy = LoggedCopy { slot, place };
        read_copy(m, &self.sizes, copy, &first, to)
    }
}
