//! A unit is told that the device behind its medium refused a call.
ghost use Rattle.std.specs.Prelude.{◌≡◌, true, Err};
ghost use Rattle.logical_blocks.specs.Book.{Book};
ghost use Rattle.scsi_unit.specs.UnitValue.{state_of, FitsUnit};
ghost use Rattle.scsi.specs.SenseCodes.{write_error};
ghost use Rattle.scsi_unit.specs.Pending.{EachIsRefused};
ghost use Rattle.scsi_unit.specs.declared.progress.Progress.TheVariants.{Done};
ghost use Rattle.scsi_unit.specs.Faulting.{faulted_unit, faulted_state, IsSteady};

use crate::{Progress, Unit};
use medium::Medium;
use scsi_commands::Sense;

impl<M: Medium> Unit<M> {
    /// Faults the unit: the device behind its medium refused a call that it had taken. Commands
    /// that need the medium fail from then on with an internal target failure, and none makes a
    /// call of it. Where a good status is taken back that was not yet sent, a write error is kept
    /// for REQUEST SENSE, as of a command that failed.
    pub fn fault(&mut self, taken_back: bool)
        ensures unit { self.new ≡ faulted_unit taken_back self.old }
        ensures by_rules { (book : Book) → state_of self.new book
            ≡ faulted_state taken_back (state_of self.old book) }
        ensures fits { (book : Book) → FitsUnit (M.state self.old.store.medium) self.old book
            → FitsUnit (M.state self.new.store.medium) self.new book }
        ensures steady { IsSteady self.old self.new }
    {
        self.store.stop();
        if taken_back {
            self.kept.fail(Sense::WRITE_ERROR);
        }
    }
    /// The device behind the medium refused a call of a command that is not over, and that writes
    /// or makes writes durable: the unit is faulted, and the command ends with a write error.
    pub fn refuse(&mut self) -> Progress
        ensures told { result ≡ Done (Err write_error) }
        ensures unit { self.new ≡ faulted_unit true self.old }
        ensures ends { EachIsRefused M.state self.old self.new }
        ensures steady { IsSteady self.old self.new }
    {
        self.fault(true);
        Progress::Done(Err(Sense::WRITE_ERROR))
    }
}
