//! What a store is made of.
ghost use Rattle.std.specs.Prelude.{◌≡◌, ◌↔◌, ◌<◌, ◌≤◌, ◌+◌, ◌/◌, ℕ, true, false, []};
ghost use Rattle.std.specs.Prelude.{length, IsTrue};
ghost use Rattle.medium.specs.Inlet.{AreHeld};
ghost use Rattle.medium.specs.Moments.{EachCut};
ghost use Rattle.journal.specs.Places.{first_home, sectors_of};
ghost use Rattle.logical_blocks.specs.Book.{Book};
ghost use Rattle.blocks.specs.Finding.{MayFind};
ghost use Rattle.blocks.specs.StoreValue.{blocks_of, layout_of, transfer_limit, is_dead};
ghost use Rattle.blocks.specs.StoreValue.{steps_left, HasLimits, FitsBook};
ghost use Rattle.blocks.specs.Settled.{IsSettled};
ghost use Rattle.blocks.specs.Passing.{IsUntouched};
ghost use Rattle.blocks.specs.Prepared.{IsTakenAtOnce};
ghost use Rattle.blocks.specs.Written.{IsWritten};

use cache::{Batch, Frozen};
use journal::Super;
use medium::{Inlet, Medium, Outlet, Switch};
use redo_log::Log;
use std::marker::Model;

/// Logical blocks of 512 bytes over a medium, with a write cache. After `start` no call takes
/// memory.
#[derive(Drop)]
pub struct Store<M: Medium> {
    pub(crate) medium: M,
    pub(crate) sizes: Super,
    pub(crate) log: Log,
    pub(crate) active: Batch,
    pub(crate) frozen: Frozen,
    // Whether the record of the frozen batch is under way.
    pub(crate) writing: bool,
    // Whether it retires ahead of the flush of the next record.
    pub(crate) goes_ahead: bool,
}

impl<M: Medium> Model for Store<M> {
    ghost use Rattle.blocks.specs.StoreValue.{StoreValue, Cached};

    ghost Value = { StoreValue M };

    ghost use Rattle.blocks.specs.Kept.{Invariant};

    ghost view = { λ s. record {
      medium = s.medium;
      cached = record { log = s.log; active = s.active; frozen = s.frozen };
      goes_ahead = s.goes_ahead;
    } };

    ghost invariant = { λ s. Invariant (M.state s.medium).size s.sizes
        (record { log = s.log; active = s.active; frozen = s.frozen }) s.writing s.goes_ahead };
}

impl<M: Medium> Store<M> {
    /// How many logical blocks there are.
    pub fn blocks(&self) -> u64
        ensures is { result ≡ blocks_of self.now.cached }
        ensures some { 1 ≤ result }
        ensures most { result ≤ 2147483648 }
    {
        self.sizes.blocks
    }

    /// How many blocks a read and a write have at most, as many as a batch and a record of the log.
    #[tactic(auto, using(crate::proofs::Limits::limit_least, crate::proofs::Limits::limit_most))]
    pub fn limit(&self) -> u32
        ensures is { result ≡ transfer_limit self.now.cached }
        ensures least { 48 ≤ result }
        ensures most { result ≤ 240 }
    {
        self.sizes.format.limit()
    }

    /// The home sector of a block. All of them are sectors of the medium.
    pub fn home_of(&self, block: u64) -> u64
        requires { block < blocks_of self.now.cached }
        ensures is { result ≡ first_home (layout_of self.now.cached) + block }
        ensures fits { sectors_of (layout_of self.now.cached) ≤ (M.state self.now.medium).size }
    {
        self.sizes.home_of(block)
    }

    /// Whether the store accepts no write until the next start: a write or a flush was refused, or
    /// a read while a record was retired, or the stamps are used up.
    pub fn is_dead(&self) -> bool
        ensures { result ≡ is_dead self.now.cached }
    {
        self.log.is_dead()
    }

    /// Whether no background step is left: each accepted write is durable and at home then, and no
    /// record waits. Of a dead store it is not told.
    pub fn is_settled(&self) -> bool
        ensures steps { IsTrue result
            ↔ ((is_dead self.now.cached ≡ false) × (steps_left self.now.cached ≡ 0)) }
        ensures settled { result ≡ true → IsSettled (M.state self.now.medium) self.now.cached }
    {
        if self.is_dead() || self.writing || !self.log.is_retired() {
            return false;
        }
        self.frozen.is_empty() && self.active.is_empty()
    }

    /// Whether no record is left to write: both batches are empty, or the store is dead. Then a
    /// call makes one batch durable at most.
    pub fn is_written(&self) -> bool
        ensures { IsTrue result ↔ IsWritten self.now.cached }
    {
        self.is_dead() || (self.active.is_empty() && self.frozen.is_empty())
    }

    /// Whether the frozen batch is empty: a write that does not fit beside the active one makes no
    /// call of the medium then.
    pub fn has_free_batch(&self) -> bool
        ensures { IsTrue result ↔ (self.now.cached.frozen.numbers ≡ []) }
    {
        self.frozen.is_empty()
    }

    /// Whether a write of `count` blocks from an address on, all of the store, makes no call of the
    /// medium.
    pub fn takes_at_once(&self, address: u64, count: usize) -> bool
        requires { address + count ≤ blocks_of self.now.cached }
        ensures { IsTrue result ↔ IsTakenAtOnce self.now.cached address count }
    {
        self.frozen.is_empty() || self.active.fits(address, count)
    }

    /// The medium that the store stands on.
    ///
    /// Between two calls a cut leaves what may be found of each book that the store fits. Where no
    /// background step is left, each write of it is durable and at home, and no record waits.
    pub fn medium(&self) -> &M
        ensures is { result.now ≡ self.now.medium }
        ensures limits { HasLimits self.now.cached }
        ensures at_rest { (book : Book) → FitsBook (M.state self.now.medium) self.now.cached book
            → book.ours ≡ true
            → EachCut (MayFind (M.state self.now.medium).size book) (M.state self.now.medium) }
        ensures settled { is_dead self.now.cached ≡ false → steps_left self.now.cached ≡ 0
            → IsSettled (M.state self.now.medium) self.now.cached }
    {
        // The log says here that it owes steps for each record that waits.
        let _ = self.log.is_retired();
        &self.medium
    }

    /// Gives the medium back.
    pub fn into_medium(self) -> M
        ensures { result ≡ self.medium }
    {
        self.medium
    }
}

impl<M: Switch> Store<M> {
    /// Arms a fuse of the medium.
    pub fn fuse(&mut self, writes: u64)
        ensures fused { M.fused writes self.old.medium self.new.medium }
        ensures untouched { IsUntouched M.state self.old self.new }
    {
        self.medium.fuse(writes);
    }

    /// Arms a failure of one call of the medium.
    pub fn fail(&mut self, call: u64)
        requires { 0 < call }
        ensures failing { M.failing call self.old.medium self.new.medium }
        ensures untouched { IsUntouched M.state self.old self.new }
    {
        self.medium.fail(call);
    }
}

impl<M: Outlet> Store<M> {
    /// Lets go of the call that the medium's device is to carry out next, if there is one.
    pub fn pop(&mut self)
        ensures given { M.given self.old.medium self.new.medium }
        ensures untouched { IsUntouched M.state self.old self.new }
    {
        self.medium.pop();
    }
}

impl<M: Inlet> Store<M> {
    /// Shows sectors to the medium as its device holds them.
    pub fn show(&mut self, first: u64, bytes: &[u8]) -> bool
        ensures shown { M.shown first bytes.now result self.old.medium self.new.medium }
        ensures cached { self.new.cached ≡ self.old.cached }
        ensures policy { self.new.goes_ahead ≡ self.old.goes_ahead }
        ensures untouched { AreHeld (M.state self.old.medium).content first (length bytes.now / 512)
            bytes.now → IsUntouched M.state self.old self.new }
    {
        self.medium.show(first, bytes)
    }
}
