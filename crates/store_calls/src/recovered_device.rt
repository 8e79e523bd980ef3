//! A device whose image was recovered.
ghost use Rattle.recovery.specs.Recovered.{FitsRecovered};

use recovery::Recovered;

/// How many sectors a device has, and what a recovery has found of its image, which fits there.
#[derive(Drop)]
pub struct RecoveredDevice {
    pub sectors: u64,
    pub found: Recovered,
    ghost fits: { FitsRecovered sectors found },
}
