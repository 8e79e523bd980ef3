//! A medium that was recovered.
ghost use Rattle.recovery.specs.Recovered.{FitsRecovered};

use crate::recovered::Recovered;
use medium::Medium;

/// A medium, and what a recovery has found of it. The image fits on the medium.
#[derive(Drop)]
pub struct RecoveredMedium<M: Medium> {
    pub medium: M,
    pub found: Recovered,
    ghost fits: { FitsRecovered (M.state medium).size found },
}
