//! What a command intends to move.

/// What a command is about to move, before it is carried out. A number of bytes is never 0.
/// `S` is what tells why a command is refused.
#[derive(Clone, Copy, Debug, PartialEq, Eq)]
pub enum Intent<S> {
    /// No data.
    None,
    /// The number of bytes of data to the initiator.
    In(u32),
    /// The number of bytes of data from the initiator.
    Out(u32),
    /// The command is refused, with this sense.
    Fail(S),
}
