//! Which way data goes, and how much of it.

/// A direction and a number of bytes: what the host announces, or what the device intends.
#[derive(Clone, Copy, Debug, PartialEq, Eq)]
pub enum Way {
    /// No bytes.
    Nothing,
    /// This many bytes to the host, at least one.
    In(u32),
    /// This many bytes to the device, at least one.
    Out(u32),
}

impl Way {
    ghost use Rattle.std.specs.Prelude.{◌≡◌};
    ghost use Rattle.spec.specs.Cases.{size_of_way};

    /// The number of bytes.
    pub fn size(self) -> u32
        ensures { result ≡ size_of_way self }
    {
        match self {
            Way::Nothing => 0,
            Way::In(size) | Way::Out(size) => size,
        }
    }
}
