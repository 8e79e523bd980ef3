//! Which image is to be written.
ghost use Rattle.std.specs.Prelude.{◌≤◌};

use journal::{Head, Super};

/// An image of these sizes, with this head, and zeros up to the end.
#[derive(Clone, Copy)]
pub(crate) struct ImagePlan {
    pub sizes: Super,
    pub head: Head,
    pub end: u64,
    ghost long: { sizes.home ≤ end },
}
