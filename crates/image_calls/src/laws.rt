//! A law of the calls of the work on an image.
ghost use Rattle.image_calls.specs.Lives.{LeavesThroughout, LeavesAll};

/// Does nothing. Whatever calls of the work come, in any order: at each moment a loss of power
/// leaves what was there before, no image, or the new one, whole, and where the work is done, the
/// new one alone. It is done when the device has told each call done, and only then is a free
/// device told nothing. A device that carries out all calls leaves what it holds.
pub fn work_laws()
    ensures leaves { LeavesThroughout }
    ensures device { LeavesAll }
{}
