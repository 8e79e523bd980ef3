//! A device that holds given bytes, for proofs alone.
ghost use Rattle.std.specs.Prelude.{◌≡◌, ℕ, List};

use window::DeviceHolds;

/// A device that holds these bytes, for proofs alone: whatever bytes they are, so those that the
/// device holds which is there.
pub fn device_holding() -> DeviceHolds
    ghost content: { List ℕ }
    ensures { result.bytes ≡ content }
{
    DeviceHolds::any()
}
