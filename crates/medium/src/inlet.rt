//! A medium that is shown what a device holds.
ghost use Rattle.std.specs.Prelude.{◌≡◌, ◌/◌, ℕ, Bool, List, length};
ghost use Rattle.medium.specs.Moments.{IsUnchanged};
ghost use Rattle.medium.specs.Inlet.{AreHeld};

use crate::medium::Medium;

/// A medium that has few of a device's sectors in memory, and is shown the others when they are to
/// be read. To be shown what the device holds is no call of the medium, and changes no content, no
/// set and no count.
pub trait Inlet: Medium {
    /// What being shown these bytes, from this sector on, and taking them or not, makes of the
    /// first.
    ghost shown: { ℕ → List ℕ → Bool → Self → Self → Type 0 };

    /// Shows these sectors, in place of those that were shown before. False, and nothing changes,
    /// where they cannot be taken.
    fn show(&mut self, first: u64, bytes: &[u8]) -> bool
        ensures shown { shown first bytes.now result self.old self.new }
        ensures size { (Self.state self.new).size ≡ (Self.state self.old).size }
        ensures unchanged { AreHeld (Self.state self.old).content first (length bytes.now / 512)
            bytes.now → IsUnchanged (Self.state self.old) (Self.state self.new) };
}
