//! How far the first sectors are read before work begins.

/// How far the first sectors are read before work begins.
#[derive(Clone, Copy, Debug, PartialEq, Eq)]
pub enum Reach {
    /// Sector 0 alone.
    First,
    /// All sectors before the first home sector, as sector 0 tells it.
    Near,
}
