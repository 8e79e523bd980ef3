//! A unit over its store.
ghost use Rattle.std.specs.Prelude.{◌≡◌, ◌<◌, ◌≤◌, ◌*◌, ◌/◌, ℕ, List, [], None, false, true};
ghost use Rattle.std.specs.Prelude.{length};
ghost use Rattle.std.specs.Prelude.{◌↔◌, IsTrue};
ghost use Rattle.medium.specs.Inlet.{AreHeld};
ghost use Rattle.medium.specs.Moments.{EachCut, IsUnchanged};
ghost use Rattle.logical_blocks.specs.Book.{Book};
ghost use Rattle.blocks.specs.Finding.{MayFind};
ghost use Rattle.blocks.specs.Settled.{IsSettled};
ghost use Rattle.blocks.specs.StoreValue.{is_dead, steps_left, HasLimits};
ghost use Rattle.scsi.specs.Rules.{opened_unit, intention};
ghost use Rattle.scsi_unit.specs.UnitValue.{unit_limit, state_of, intention_of, answer_of};
ghost use Rattle.scsi_unit.specs.UnitValue.{FitsUnit, TellsLimit, ArmsUnit};
ghost use Rattle.scsi.specs.declared.intent.Intent.TheVariants as intent;
ghost use Rattle.blocks.specs.Limit.{HasLimit};
ghost use Rattle.blocks.specs.Written.{IsWritten};
ghost use Rattle.blocks.specs.declared.work.Work.TheVariants.{Settle};
ghost use Rattle.scsi_unit.specs.Asking.{CanCarryOut};
ghost use Rattle.scsi_unit.specs.Serving.{Serves, IsSparing, WorksUnit};
ghost use Rattle.scsi_unit.specs.Calls.{PassesOn};
ghost use Rattle.scsi_unit.specs.Performing.{settled_kept};

use crate::Intent;
use crate::store_calls::step;
use blocks::{Store, Work};
use medium::{Inlet, Medium, Outlet, Switch};
use scsi_commands::{Identity, Kept, Sense};

/// A logical unit whose blocks are in a store. No call takes memory.
#[derive(Drop)]
pub struct Unit<M: Medium> {
    pub(crate) store: Store<M>,
    pub(crate) identity: Identity,
    pub(crate) kept: Kept,
    pub(crate) write_cache: bool,
}

impl<M: Medium> Unit<M> {
    /// A unit over a store that has started: the unit attention is pending, no sense is kept, and
    /// the write cache is enabled.
    pub fn new(store: Store<M>, identity: Identity) -> Unit<M>
        ensures value { result ≡ record {
          store = store;
          identity = identity;
          kept = record { sense = None; attention = true };
          write_cache = true;
        } }
        ensures opened { is_dead store.cached ≡ false → (book : Book)
            → state_of result book ≡ opened_unit (unit_limit result) identity book }
    {
        Unit {
            store,
            identity,
            kept: Kept::new(),
            write_cache: true,
        }
    }

    /// How many blocks one READ or WRITE moves at most. No call changes it.
    pub fn limit(&self) -> u32
        ensures { TellsLimit self.now result }
    {
        self.store.limit()
    }

    /// What a command block is about to move. Bytes past the command are ignored, and at most
    /// `limit` blocks are moved.
    #[tactic(auto, unfolding(scsi::specs::Rules::intention_by))]
    pub fn intend(&self, block: &[u8]) -> Intent
        ensures intention { result ≡ intention_of self.now block.now }
        ensures by_book { (book : Book) → FitsUnit (M.state self.now.store.medium) self.now book
            → result ≡ intention (state_of self.now book) block.now }
        ensures most { (n : ℕ) → result ≡ intent.Out n → (0 < n) × (n ≤ 512 * unit_limit self.now) }
        ensures room { (n : ℕ) → result ≡ intent.In n → n ≤ 512 * unit_limit self.now }
    {
        let parsed = self.command(block);
        self.intention(&parsed)
    }

    /// Carries out a command block over the data taken for it, and writes the data to send to the
    /// front of `out`. The answer is the number of these bytes. Where the block intends to take
    /// data, `taken` has as many bytes; else it is ignored. Where it intends to send data, `out`
    /// has room for as many bytes; else nothing is sent, and `out` may be empty.
    ///
    /// # Errors
    ///
    /// The sense with which the command fails, which is kept for REQUEST SENSE.
    pub fn carry_out(&mut self, block: &[u8], taken: &[u8], out: &mut [u8]) -> Result<usize, Sense>
        requires { CanCarryOut self.old block.now taken.now out.old }
        ensures serves { Serves (M.state self.old.store.medium) (M.state self.new.store.medium)
            block.now taken.now self.old (answer_of result out.new) self.new }
        ensures sparing { IsSparing (M.state self.old.store.medium)
            (M.state self.new.store.medium) block.now taken.now self.old
            (answer_of result out.new) self.new }
        ensures passes { PassesOn M.state M.follows block.now taken.now self.old result self.new }
    {
        let answer = self.perform_block(block, taken, out);
        settle(&mut self.kept, &answer);
        answer
    }

    /// Makes a step in the background towards rest, of at most two calls of the medium.
    ///
    /// Where it faults the unit, no command fails with a write error: those that need the medium
    /// fail from then on with an internal target failure.
    pub fn tick(&mut self)
        ensures { WorksUnit Settle M.state M.follows self.old self.new }
    {
        self.work(Work::Settle);
    }

    /// Makes a step in the background that works towards this, of at most two calls of the medium.
    /// It may fault the unit as `tick` may.
    pub fn work(&mut self, work: Work)
        ensures { WorksUnit work M.state M.follows self.old self.new }
    {
        step(&mut self.store, work);
    }

    /// Whether no background step is left: each accepted write is durable and at home then, and no
    /// record waits. A faulted unit is never settled.
    pub fn is_settled(&self) -> bool
        ensures steps { IsTrue result ↔ ((is_dead self.now.store.cached ≡ false)
            × (steps_left self.now.store.cached ≡ 0)) }
        ensures settled { result ≡ true
            → IsSettled (M.state self.now.store.medium) self.now.store.cached }
    {
        self.store.is_settled()
    }

    /// Whether no record is left to write: both batches are empty, or the unit is faulted. Then a
    /// command makes one batch durable at most.
    pub fn is_written(&self) -> bool
        ensures { IsTrue result ↔ IsWritten self.now.store.cached }
    {
        self.store.is_written()
    }

    /// Whether the frozen batch of the store is empty: no WRITE that promises nothing asks the
    /// medium for anything then.
    pub fn has_free_batch(&self) -> bool
        ensures { IsTrue result ↔ (self.now.store.cached.frozen.numbers ≡ []) }
    {
        self.store.has_free_batch()
    }

    /// The medium that the unit stands on.
    ///
    /// Between two calls a cut leaves what may be found of each book that the unit fits. Where no
    /// background step is left, each accepted write is durable and at home, and no record waits.
    /// What a cut leaves has the limit of the unit, where every image was ours.
    pub fn medium(&self) -> &M
        ensures is { result.now ≡ self.now.store.medium }
        ensures limits { HasLimits self.now.store.cached }
        ensures settled { is_dead self.now.store.cached ≡ false
            → steps_left self.now.store.cached ≡ 0
            → IsSettled (M.state self.now.store.medium) self.now.store.cached }
        ensures at_rest { (book : Book)
            → FitsUnit (M.state self.now.store.medium) self.now book → book.ours ≡ true
            → EachCut (MayFind (M.state self.now.store.medium).size book)
            (M.state self.now.store.medium) }
        ensures limit { (book : Book)
            → FitsUnit (M.state self.now.store.medium) self.now book → book.ours ≡ true
            → EachCut (HasLimit (M.state self.now.store.medium).size (unit_limit self.now))
            (M.state self.now.store.medium) }
    {
        self.store.medium()
    }

    /// Gives the medium back.
    pub fn into_medium(self) -> M
        ensures { result ≡ self.store.medium }
    {
        self.store.into_medium()
    }
}

impl<M: Switch> Unit<M> {
    /// Arms a fuse of the medium.
    pub fn fuse(&mut self, writes: u64)
        ensures { ArmsUnit M.state (M.fused writes) self.old self.new }
    {
        self.store.fuse(writes);
    }

    /// Arms a failure of one call of the medium.
    pub fn fail(&mut self, call: u64)
        requires { 0 < call }
        ensures { ArmsUnit M.state (M.failing call) self.old self.new }
    {
        self.store.fail(call);
    }
}

impl<M: Outlet> Unit<M> {
    /// Lets go of the call that the medium's device is to carry out next, if there is one.
    pub fn pop(&mut self)
        ensures { ArmsUnit M.state M.given self.old self.new }
    {
        self.store.pop();
    }
}

impl<M: Inlet> Unit<M> {
    /// Shows sectors to the medium as its device holds them.
    pub fn show(&mut self, first: u64, bytes: &[u8]) -> bool
        ensures shown { M.shown first bytes.now result self.old.store.medium self.new.store.medium }
        ensures others { self.new ≡ record self.old {
          store = record self.old.store { medium = self.new.store.medium };
        } }
        ensures unchanged { AreHeld (M.state self.old.store.medium).content first
            (length bytes.now / 512) bytes.now → IsUnchanged (M.state self.old.store.medium)
            (M.state self.new.store.medium) }
        ensures fits { AreHeld (M.state self.old.store.medium).content first
            (length bytes.now / 512) bytes.now
            → (book : Book) → FitsUnit (M.state self.old.store.medium) self.old book
            → FitsUnit (M.state self.new.store.medium) self.new book }
    {
        self.store.show(first, bytes)
    }
}

/// Keeps the sense of a command that failed, and drops that of an earlier one.
pub(crate) fn settle(kept: &mut Kept, answer: &Result<usize, Sense>)
    ensures { (out : List ℕ) → kept.new ≡ settled_kept (answer_of answer.now out) kept.old }
{
    match answer {
        Ok(_) => kept.begin(),
        Err(sense) => kept.fail(*sense),
    }
}
