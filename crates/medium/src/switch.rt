//! A medium whose calls can be made to fail.
ghost use Rattle.std.specs.Prelude.{◌<◌, ℕ};
ghost use Rattle.medium.specs.Moments.{IsUnchanged};

use crate::medium::Medium;

/// A medium that can be told to refuse calls. Being told changes no content, no set and no count.
pub trait Switch: Medium {
    /// What arming a fuse of this many writes makes of the first.
    ghost fused: { ℕ → Self → Self → Type 0 };

    /// What arming a failure of the call with this number from now makes of the first.
    ghost failing: { ℕ → Self → Self → Type 0 };

    /// The next `writes` writes and flushes still happen. The one after them and every later call
    /// is refused, until a cut.
    fn fuse(&mut self, writes: u64)
        ensures fused { fused writes self.old self.new }
        ensures unchanged { IsUnchanged (Self.state self.old) (Self.state self.new) };

    /// The call with this number from now, which counts from 1, is refused once and has no effect.
    fn fail(&mut self, call: u64)
        requires { 0 < call }
        ensures failing { failing call self.old self.new }
        ensures unchanged { IsUnchanged (Self.state self.old) (Self.state self.new) };
}
