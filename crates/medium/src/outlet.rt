//! A medium that hands its calls on to a device.
ghost use Rattle.medium.specs.Moments.{IsUnchanged};

use crate::medium::Medium;

/// A medium that keeps calls until a device has carried them out. To let one go is no call of the
/// medium, and changes no content, no set and no count.
pub trait Outlet: Medium {
    /// What letting go of the next call makes of the first.
    ghost given: { Self → Self → Type 0 };

    /// Lets go of the call that the device is to carry out next, if there is one.
    fn pop(&mut self)
        ensures given { given self.old self.new }
        ensures unchanged { IsUnchanged (Self.state self.old) (Self.state self.new) };
}
