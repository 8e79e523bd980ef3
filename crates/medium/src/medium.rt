//! Sectors that can be read, written and flushed.
ghost use Rattle.std.specs.Prelude.{◌≡◌, ◌⊎◌, ◌<◌, ◌/◌, ℕ, length, OnOk, OnErr};
ghost use Rattle.medium.specs.declared.fault.MediumFault.TheVariants.{Read, Write, Flush};
ghost use Rattle.medium.specs.Medium.{State, Stays, Holds, Within, Gains, Only, Passes};
ghost use Rattle.medium.specs.Medium.{LooksOnly, IsSound};
ghost use Rattle.medium.specs.Range.{AreSectors, ReadsAtOnce};

use crate::fault::MediumFault;

/// Sectors of 512 bytes, numbered from 0, of which each write is whole or absent after a cut.
pub trait Medium {
    /// What it holds, and what a cut may leave of it.
    ghost state: { Self → State };

    /// The second comes after the first, by calls of this trait alone.
    ghost follows: { Self → Self → Type 0 };

    /// How many sectors there are.
    fn sectors(&self) -> u64
        ensures { result ≡ (state self.now).size };

    /// Reads one sector.
    ///
    /// # Errors
    ///
    /// `Read` where the medium refuses the read. The array may hold anything then.
    fn read(&mut self, sector: u64, to: &mut [u8; 512]) -> Result<(), MediumFault>
        requires { sector < (state self.old).size }
        ensures ok { OnOk result (to.new ≡ (state self.old).content sector) }
        ensures content { Stays (state self.old).content (state self.new).content }
        ensures sets { Within (state self.new).may_leave (state self.old).may_leave }
        ensures passes { Passes Read result (state self.old) (state self.new) }
        ensures follows { follows self.old self.new
            × LooksOnly (λ s. s ≡ sector) (state self.old) (state self.new) };

    /// Reads neighbouring sectors at once, where the medium has them all at hand: a read of each,
    /// of which none is refused. Otherwise it answers false, and makes no call.
    fn read_at_once(&mut self, sector: u64, to: &mut [u8]) -> bool
        requires { AreSectors sector (length to.old) (state self.old).size }
        ensures { ReadsAtOnce state follows result sector (length to.old / 512) to.new
            self.old self.new }
    {
        false
    }

    /// Writes one sector. A cut may lose the write until a good flush.
    ///
    /// # Errors
    ///
    /// `Write` where the medium refuses the write. It may have happened or not.
    fn write(&mut self, sector: u64, from: &[u8; 512]) -> Result<(), MediumFault>
        requires { sector < (state self.old).size }
        ensures ok { OnOk result
            (Holds sector from.now (state self.old).content (state self.new).content) }
        ensures err { OnErr result (Stays (state self.old).content (state self.new).content
            ⊎ Holds sector from.now (state self.old).content (state self.new).content) }
        ensures sets { Gains sector from.now (state self.old).may_leave (state self.new).may_leave }
        ensures passes { Passes Write result (state self.old) (state self.new) }
        ensures follows { follows self.old self.new };

    /// Makes all sectors durable: a cut after it leaves what a read gives.
    ///
    /// # Errors
    ///
    /// `Flush` where the medium refuses the flush. Every write may still be lost.
    fn flush(&mut self) -> Result<(), MediumFault>
        ensures ok { OnOk result (Only (state self.old).content (state self.new).may_leave) }
        ensures content { Stays (state self.old).content (state self.new).content }
        ensures sets { Within (state self.new).may_leave (state self.old).may_leave }
        ensures passes { Passes Flush result (state self.old) (state self.new) }
        ensures follows { follows self.old self.new };

    ghost sound: { (m : Self) → IsSound (state m) };

    ghost follows_itself: { (m : Self) → follows m m };

    ghost follows_through: { (a b c : Self) → follows a b → follows b c → follows a c };
}
