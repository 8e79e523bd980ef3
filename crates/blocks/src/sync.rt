//! How accepted writes are made durable.
ghost use Rattle.std.specs.Prelude.{◌≡◌, ◌<◌, ◌+◌, ◌*◌, false, OnOk};
ghost use Rattle.medium.specs.declared.fault.MediumFault.TheVariants.{Flush};
ghost use Rattle.logical_blocks.specs.Book.{Book, promised};
ghost use Rattle.blocks.specs.StoreValue.{FitsBook};
ghost use Rattle.blocks.specs.Background.{IsUnderWay};
ghost use Rattle.blocks.specs.OneBatch.{SendsOneBatch};
ghost use Rattle.blocks.specs.Sent.{batch_sends};
ghost use Rattle.blocks.specs.Passing.{PassesPaid, Answers};
ghost use Rattle.blocks.specs.Finishing.{WritesRecord, MakesReady, FinishesFrozen};
ghost use Rattle.blocks.specs.Finishing.{FinishesBoth, CostsSync};
ghost use Rattle.theorems.specs.Retiring.{finish_calls};
ghost use Rattle.theorems.specs.Retiring.{finish_flushes};
ghost use Rattle.blocks.specs.Work.{IsIdle};

use crate::{Store, StoreFault};
use medium::Medium;
use redo_log::Progress;

impl<M: Medium> Store<M> {
    /// Makes every accepted write durable, and promises it. It retires no more than it needs for
    /// room.
    ///
    /// # Errors
    ///
    /// `Dead` on a dead store, and where the store dies in this call.
    pub fn sync(&mut self) -> Result<(), StoreFault>
        ensures passes { PassesPaid M.state M.follows
            (2 * batch_sends self.old.cached) self.old self.new }
        ensures ok { (book : Book) → FitsBook (M.state self.old.medium) self.old.cached book
            → OnOk result (FitsBook (M.state self.new.medium) self.new.cached (promised book)) }
        ensures answers { Answers result self.old self.new }
        ensures batches { FinishesBoth result self.old self.new }
        // It makes the calls that write the records and that retire for their room, and no other
        // call or flush.
        ensures cost { CostsSync self.old.goes_ahead result (M.state self.old.medium)
            (M.state self.new.medium) self.old.cached self.new.cached }
    {
        self.finish()?;
        self.freeze();
        self.finish()
    }

    /// Makes the frozen batch durable.
    pub(crate) fn finish(&mut self) -> Result<(), StoreFault>
        ensures passes { PassesPaid M.state M.follows
            (batch_sends self.old.cached) self.old self.new }
        ensures batch { FinishesFrozen result self.old self.new }
        ensures cost { OnOk result ((M.state self.new.medium).calls
            ≡ (M.state self.old.medium).calls
            + finish_calls self.old.goes_ahead self.old.cached.frozen.numbers
            self.old.cached.log) }
        ensures flushes { OnOk result ((M.state self.new.medium).made Flush
            ≡ (M.state self.old.medium).made Flush
            + finish_flushes self.old.cached.frozen.numbers self.old.cached.log) }
        ensures one_batch { SendsOneBatch self.old.goes_ahead (M.state self.old.medium)
            (M.state self.new.medium) self.old.cached.log }
    {
        if self.is_dead() {
            return Err(StoreFault::Dead);
        }
        if self.is_writing() {
            return self.write_out();
        }
        if self.has_free_batch() {
            return Ok(());
        }
        self.make_ready()?;
        self.begin()?;
        self.write_out()
    }

    // Makes steps until the record under way is durable.
    fn write_out(&mut self) -> Result<(), StoreFault>
        requires { IsUnderWay self.old.cached }
        ensures { WritesRecord M.state M.follows result self.old self.new }
    {
        while let Progress::More = self.step()? {}
        Ok(())
    }

    // Makes room for one more record: where the store goes ahead and a slot is free, as that does.
    fn make_ready(&mut self) -> Result<(), StoreFault>
        requires { IsIdle self.old.cached }
        ensures { MakesReady M.state M.follows self.old.goes_ahead result self.old self.new }
    {
        if !self.goes_ahead {
            return self.make_room();
        }
        if self.log.has_room() {
            return self.go_ahead();
        }
        self.make_room()
    }

    // Retires records until the log has room.
    fn make_room(&mut self) -> Result<(), StoreFault>
        requires { IsIdle self.old.cached }
        ensures { MakesReady M.state M.follows false result self.old self.new }
    {
        // The log says here how many writes and flushes retire its oldest record at most.
        let _few = self.log.has_room();
        while !self.log.has_room() {
            self.retire()?;
        }
        Ok(())
    }
}
