//! What is asked of a device that is a file.
ghost use Rattle.std.specs.Prelude.{◌≡◌, ◌/◌, ℕ, List, [], ◌∷◌, IfErr, OnOk, OnErr, length};
ghost use Rattle.window.specs.declared.call.DeviceCall.{DeviceCall};
ghost use Rattle.window.specs.declared.call.DeviceCall.TheVariants.{Flush};
ghost use Rattle.device_file.specs.Reads.{AreRead};
ghost use Rattle.device_file.specs.Asked.{Told, AsksFor, writes_of};

use crate::fault::{FileCall, FileFault};
use crate::run::Run;

/// Sectors of 512 bytes in a file that is open.
///
/// What it is asked to carry out is told, call by call. A call that it refused may have been
/// carried out in part.
pub trait DeviceFile {
    /// What it was asked to carry out since it was opened, and how many times it refused.
    ghost told: { Self → Told };

    /// How many sectors it has.
    ghost size: { Self → ℕ };

    /// A read gave this block of this sector. Nothing else is known of it.
    ghost holds: { Self → ℕ → List ℕ → Type 0 };

    /// A read from this sector on, of this many sectors, was refused. Nothing else is known of it.
    ghost refuses: { Self → ℕ → ℕ → Type 0 };

    /// One read gave these bytes, of the sectors from this one on. Nothing else is known of it.
    ghost gave: { Self → ℕ → List ℕ → Type 0 };

    /// One call of it was asked to carry these out at once, and made the second of the first, good
    /// or refused. Nothing else is known of it.
    ghost at_once: { Self → List DeviceCall → Self → Type 0 };

    /// How many sectors there are.
    fn sectors(&self) -> u64
        ensures { result ≡ size self.now };

    /// Reads as many sectors as the bytes have, from this one on.
    ///
    /// # Errors
    ///
    /// The file refused the call; the cause is the system's. The bytes may be any then.
    fn read(&self, first: u64, to: &mut [u8]) -> Result<(), FileFault>
        ensures read { OnOk result (AreRead (holds self.now) first to.new) }
        ensures once { OnOk result (gave self.now first to.new) }
        ensures unread { OnErr result (refuses self.now first (length to.new / 512)) }
        ensures named { IfErr result (λ fault. fault.call ≡ FileCall.Read) };

    /// Writes neighbouring sectors.
    ///
    /// # Errors
    ///
    /// The file refused the call; the cause is the system's. It counts as asked, and any part of
    /// the sectors may be written.
    fn write(&mut self, run: &Run) -> Result<(), FileFault>
        ensures asks { AsksFor told size (writes_of run.now.first run.now.blocks.items)
            FileCall.Write self.old self.new result }
        ensures once { at_once self.old (writes_of run.now.first run.now.blocks.items) self.new };

    /// Waits until all that was written before is durable.
    ///
    /// # Errors
    ///
    /// The file refused the call; the cause is the system's. It counts as asked, and what was
    /// written may be durable or not.
    fn sync(&mut self) -> Result<(), FileFault>
        ensures asks { AsksFor told size (Flush ∷ []) FileCall.Sync self.old self.new result }
        ensures once { at_once self.old (Flush ∷ []) self.new };
}
