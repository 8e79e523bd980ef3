//! How many bytes a bulk packet has at most.

/// The size of a bulk packet, which goes with the speed of the bus (USB 2.0, 5.8.3).
#[derive(Clone, Copy, Debug, PartialEq, Eq)]
pub enum PacketSize {
    /// At full speed 64 bytes.
    Full64,
    /// At high speed 512 bytes.
    High512,
}

impl PacketSize {
    ghost use Rattle.std.specs.Prelude.{◌≡◌};
    ghost use Rattle.spec.specs.Packets.{bytes_of};

    /// How many bytes a packet has at most.
    pub fn bytes(self) -> u32
        ensures { result ≡ bytes_of self }
    {
        match self {
            PacketSize::Full64 => 64,
            PacketSize::High512 => 512,
        }
    }
}
