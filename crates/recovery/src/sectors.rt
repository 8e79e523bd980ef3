//! Sectors that are written at once, and not through the log.
ghost use Rattle.std.specs.Prelude.{◌≡◌, ◌<◌, ◌≤◌, ◌-◌, ℕ, OnOk, replicate};
ghost use Rattle.medium.specs.Medium.{Holds, CutLeaves};
ghost use Rattle.medium.specs.Moments.{IsFlushed};
ghost use Rattle.recovery.specs.Calls.{FollowsBy, WritesAllPass, WithOrWithout, IsBetween};
ghost use Rattle.recovery.specs.Calls.{cleared_at};

use crate::clearing::Clearing;
use medium::{Medium, MediumFault, drive};

/// Writes zeros to each sector from this one up to that one, and flushes nothing.
///
/// # Errors
///
/// Where the medium refused a write: none is made behind it.
pub fn clear<M: Medium>(m: &mut M, from: u64, end: u64) -> Result<(), MediumFault>
    requires inside { end ≤ (M.state m.old).size }
    requires some { from ≤ end }
    ensures zeros { OnOk result ((x : ℕ) → from ≤ x → x < end
        → (M.state m.new).content x ≡ replicate 512 0) }
    ensures clears { WritesAllPass (IsBetween from end)
        (CutLeaves (cleared_at (IsBetween from end) (M.state m.old).may_leave)) (end - from)
        (M.state m.old) (M.state m.new) result }
    ensures follows { FollowsBy M.state M.follows (end - from) m.old m.new }
{
    let mut clearing = Clearing { at: from, end };
    drive(m, &mut clearing, &mut [0; 512])
}

/// Writes a sector and flushes it.
///
/// # Errors
///
/// Where the medium refused one of the two calls.
#[tactic(auto, using(crate::proofs::JoinedCalls::reads_none))]
pub fn write_through<M: Medium>(
    m: &mut M,
    place: u64,
    sector: &[u8; 512],
) -> Result<(), MediumFault>
    requires { place < (M.state m.old).size }
    ensures done { OnOk result
        (Holds place sector.now (M.state m.old).content (M.state m.new).content
        × IsFlushed (M.state m.new)) }
    ensures writes { WritesAllPass (λ x. x ≡ place)
        (WithOrWithout place sector.now (M.state m.old).may_leave) 2
        (M.state m.old) (M.state m.new) result }
    ensures follows { FollowsBy M.state M.follows 2 m.old m.new }
{
    m.write(place, sector)?;
    m.flush()
}
