//! The thirteen cases by name.

/// A bulk endpoint, named from the host's side.
#[derive(Clone, Copy, Debug, PartialEq, Eq)]
pub enum Endpoint {
    In,
    Out,
}

/// How what the host announces and what the device intends go together (Bulk-Only Transport 1.0,
/// 6.7).
#[derive(Clone, Copy, Debug, PartialEq, Eq)]
pub enum Case {
    /// Neither moves bytes (Hn = Dn).
    C1,
    /// The device alone intends to send (Hn < Di).
    C2,
    /// The device alone intends to take (Hn < Do).
    C3,
    /// The host alone reads (Hi > Dn).
    C4,
    /// The host reads more than the device sends (Hi > Di).
    C5,
    /// The host reads what the device sends (Hi = Di).
    C6,
    /// The host reads less than the device sends (Hi < Di).
    C7,
    /// The host reads, and the device takes (Hi <> Do).
    C8,
    /// The host alone writes (Ho > Dn).
    C9,
    /// The host writes, and the device sends (Ho <> Di).
    C10,
    /// The host writes more than the device takes (Ho > Do).
    C11,
    /// The host writes what the device takes (Ho = Do).
    C12,
    /// The host writes less than the device takes (Ho < Do).
    C13,
}

/// What comes of a case.
#[derive(Clone, Copy, Debug, PartialEq, Eq)]
pub struct Outcome {
    /// The bytes that go over the bus.
    pub moved: u32,
    /// The endpoint that is halted, after the bytes.
    pub halt: Option<Endpoint>,
    /// Whether the status is a phase error.
    pub phase: bool,
    /// The bytes announced and not used.
    pub residue: u32,
}
