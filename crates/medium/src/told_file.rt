//! A file that tells what it was asked.
ghost use Rattle.std.specs.Prelude.{◌≡◌, ◌≤◌, take, length, is_ok, IfOk, OnErr, OnOk};
ghost use Rattle.medium.specs.FileStory.{Told, answered, AsksFor, KeepsBytes, IsResized};
ghost use Rattle.medium.specs.FileStory.{AreGiven, Gives, IsUnanswered, Takes, TakesWithin};
ghost use Rattle.medium.specs.declared.file_call.FileCall.TheVariants.{Lock, Measure, Resize};
ghost use Rattle.medium.specs.declared.file_call.FileCall.TheVariants.{Read, Write, Sync};

use std::io;

/// A file that is open: what it holds, and what it was asked.
///
/// A refused call may have been carried out in part.
pub trait ToldFile {
    /// What it holds, as far as it is known, and what it was asked for since it was opened.
    ghost told: { Self → Told };

    /// Locks it for this handle, until it is dropped.
    ///
    /// # Errors
    ///
    /// The system did not lock it; `WouldBlock` where another handle has it locked.
    fn lock(&mut self) -> io::Result<()>
        ensures { told self.new ≡ answered (is_ok result) Lock (told self.old) };

    /// How many bytes it has.
    ///
    /// # Errors
    ///
    /// The system did not tell.
    fn measure(&mut self) -> io::Result<u64>
        ensures asked { AsksFor (is_ok result) Measure (told self.old) (told self.new) }
        ensures size { IfOk result (λ bytes. (told self.new).size ≡ bytes) };

    /// Gives it this length: it keeps its first bytes, and new ones are zeros.
    ///
    /// # Errors
    ///
    /// The system refused it.
    fn resize(&mut self, length: u64) -> io::Result<()>
        ensures asked { AsksFor (is_ok result) (Resize length) (told self.old) (told self.new) }
        ensures size { OnOk result (IsResized length (told self.old) (told self.new)) };

    /// Reads what it holds from this place on: as many bytes as it says, perhaps fewer than are
    /// asked for.
    ///
    /// # Errors
    ///
    /// The system refused it. What it holds is as it was.
    fn read_at(&mut self, to: &mut [u8], at: u64) -> io::Result<usize>
        ensures asked { AsksFor (is_ok result) (Read at) (told self.old) (told self.new) }
        ensures bound { IfOk result (λ count. count ≤ length to.new) }
        ensures gives { IfOk result (λ count.
            Gives at (take count to.new) (told self.old) (told self.new)) }
        ensures err { OnErr result (KeepsBytes (told self.old) (told self.new)) };

    /// Looks at what it holds from this place on, which is not noted: as many bytes as it says,
    /// perhaps fewer than are asked for.
    ///
    /// # Errors
    ///
    /// The system refused it.
    fn look_at(&self, to: &mut [u8], at: u64) -> io::Result<usize>
        ensures bound { IfOk result (λ count. count ≤ length to.new) }
        ensures gives { IfOk result
            (λ count. AreGiven (told self.now).looks at (take count to.new)) }
        ensures ends { IfOk result
            (λ count. count ≡ 0 → IsUnanswered (told self.now).looks at (length to.new)) }
        ensures err { OnErr result (IsUnanswered (told self.now).looks at (length to.new)) };

    /// Writes bytes from this place on: as many as it says, perhaps fewer than are given.
    ///
    /// # Errors
    ///
    /// The system refused it. Any part of the bytes may be written.
    fn write_at(&mut self, from: &[u8], at: u64) -> io::Result<usize>
        ensures asked { AsksFor (is_ok result) (Write at) (told self.old) (told self.new) }
        ensures bound { IfOk result (λ count. count ≤ length from.now) }
        ensures takes { IfOk result (λ count.
            Takes at (take count from.now) (told self.old) (told self.new)) }
        ensures err { OnErr result
            (TakesWithin at (length from.now) (told self.old) (told self.new)) };

    /// Makes durable what it holds.
    ///
    /// # Errors
    ///
    /// The system refused it. What was written may be durable or not.
    fn sync(&mut self) -> io::Result<()>
        ensures { told self.new ≡ answered (is_ok result) Sync (told self.old) };
}
