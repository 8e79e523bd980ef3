//! What a medium was before each call, the latest first. It takes no memory.
ghost use Rattle.std.specs.Prelude.{◌≡◌, List, [], ◌∷◌};
ghost use Rattle.std.specs.Borrow.{ftrue};
ghost use Rattle.medium.specs.Sim.{Sim};

use crate::sim::SimMedium;
use std::marker::Model;

#[derive(Drop)]
pub(crate) struct Past {
    pub ghost moments: { List Sim },
}

impl Model for Past {
    ghost also_owns = { λ _. ftrue };
}

impl Past {
    pub(crate) fn new() -> Past
        ensures { result.moments ≡ [] }
    {
        Past {}
    }

    /// The medium as it is comes first.
    pub(crate) fn with(&self, _medium: &SimMedium) -> Past
        ensures { result.moments ≡ _medium.now ∷ self.now.moments }
    {
        Past {}
    }
}
