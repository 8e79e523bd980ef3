//! What holds of every run of calls.
ghost use Rattle.medium.specs.Arming.{FuseFalls, FailureCountsDown, UnarmedRefusesNothing};
ghost use Rattle.medium.specs.Arming.{SizesStay};

/// Does nothing: its contract says that calls alone arm nothing in a medium in memory, what they
/// leave of a fuse and of a failure, that nothing is refused where nothing is armed, and that sizes
/// stay.
pub fn sim_laws()
    ensures fuse { FuseFalls }
    ensures failure { FailureCountsDown }
    ensures unarmed { UnarmedRefusesNothing }
    ensures sizes { SizesStay }
{}
