//! Commands one step at a time: a step makes two calls of the medium at most, or those of one READ.
ghost use Rattle.std.specs.Prelude.{◌≡◌, ℕ, List, false, Some, Ok};
ghost use Rattle.blocks.specs.StoreValue.{is_dead};
ghost use Rattle.scsi_unit.specs.Pending.{CanBegin, CanServe, CanGoOn, BeginPost, GoOnPost};
ghost use Rattle.scsi_unit.specs.Pending.{first_want, CanWant, TakesAll};

use crate::checks::needs_medium;
use crate::{Progress, Unit, Want};
use medium::Medium;
use scsi_commands::{Command, Sense};

impl<M: Medium> Unit<M> {
    /// Begins a command that `command` told, or its refusal, over the data taken for it. No call of
    /// the medium is made. Where the command wants something that such a call alone can give, or a
    /// commit, it is told, and `go_on` makes one step after another until the command is over.
    ///
    /// Meanwhile no other command may be begun. Data to send come to the front of `out`.
    pub fn begin(&mut self, told: Result<Command, Sense>, taken: &[u8], out: &mut [u8]) -> Progress
        requires { CanBegin self.old told taken.now out.old }
        ensures { BeginPost M.state M.follows told taken.now self.old result out.new self.new }
    {
        match told {
            Ok(command) => self.begin_command(command, taken, out),
            Err(sense) => self.end(Err(sense)),
        }
    }

    /// Makes one step of a command that is not over and wants this: at most two calls of the
    /// medium, or, for the blocks of a READ, those that read them. The command, and the data taken
    /// for it, are those with which it began. Where it wants the same again fewer steps are left.
    /// Else it is over, or wants what comes behind: a WRITE its commit, a READ its blocks.
    ///
    /// A refused call of the step ends the command with its error. A unit that was faulted before
    /// ends it with an internal target failure.
    pub fn go_on(&mut self, command: Command, want: Want, taken: &[u8], out: &mut [u8]) -> Progress
        requires { CanGoOn self.old command want taken.now out.old }
        ensures { GoOnPost M.state M.follows command want taken.now self.old result out.new
            self.new }
    {
        if self.store.is_dead() {
            return self.end(Err(Sense::INTERNAL_TARGET_FAILURE));
        }
        match want {
            Want::Room => self.accept(&command, taken),
            Want::Commit => self.commit(&command),
            Want::Read => self.read_now(&command, out),
        }
    }

    // Begins a command that was not refused.
    fn begin_command(&mut self, command: Command, taken: &[u8], out: &mut [u8]) -> Progress
        requires { CanServe self.old command taken.now out.old }
        ensures { BeginPost M.state M.follows (Ok command) taken.now self.old result out.new
            self.new }
    {
        if self.store.is_dead() && needs_medium(&command) {
            return self.end(Err(Sense::INTERNAL_TARGET_FAILURE));
        }
        match self.first_want(&command, taken) {
            Some(want) => self.begin_by(command, want, taken),
            None => {
                let answer = self.perform(command, taken, out);
                self.end(answer)
            }
        }
    }

    // Begins one that wants this first. A commit waits for the medium, which may be behind.
    fn begin_by(&mut self, command: Command, want: Want, taken: &[u8]) -> Progress
        requires live { is_dead self.old.store.cached ≡ false }
        requires can { CanWant self.old command want taken.now }
        requires first { first_want command taken.now self.old.write_cache ≡ Some want }
        ensures { (out : List ℕ) → BeginPost M.state M.follows (Ok command) taken.now self.old
            result out self.new }
    {
        match want {
            Want::Room if self.has_room(&command) => self.accept(&command, taken),
            _ => Progress::Wants(want),
        }
    }

    // What a command wants first, if it wants something.
    fn first_want(&self, command: &Command, taken: &[u8]) -> Option<Want>
        requires { TakesAll command.now taken.now }
        ensures { result ≡ first_want command.now taken.now self.now.write_cache }
    {
        match command {
            Command::Write10(transfer) | Command::Write16(transfer) if transfer.count > 0 => Some(
                Want::Room,
            ),
            Command::Read10(transfer) | Command::Read16(transfer) if transfer.count > 0 => {
                Some(if transfer.fua {
                    Want::Commit
                } else {
                    Want::Read
                })
            }
            Command::SynchronizeCache10(_) | Command::SynchronizeCache16(_) => Some(Want::Commit),
            Command::ModeSelect { length } if self.clears(*length, taken) => Some(Want::Commit),
            _ => None,
        }
    }
}
