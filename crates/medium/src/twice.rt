//! A sector that is put twice, and what a cut between could have left.
ghost use Rattle.std.specs.Prelude.{◌≡◌, ◌<◌, ◌≤◌, ℕ, length, OnOk};
ghost use Rattle.medium.specs.History.{state_of, EachMoment};
ghost use Rattle.medium.specs.Medium.{Image, CutLeaves, Holds, Only};
ghost use Rattle.medium.specs.Moments.{EachCut, SparesFrom};
ghost use Rattle.medium.specs.Sim as sim;

use crate::fault::MediumFault;
use crate::medium::Medium;
use crate::remembering::Remembering;

// Writes the first sector and makes it durable.
fn put<M: Medium>(m: &mut M, block: &[u8; 512]) -> Result<(), MediumFault>
    requires { 0 < (M.state m.old).size }
    ensures content { OnOk result
        (Holds 0 block.now (M.state m.old).content (M.state m.new).content) }
    ensures only { OnOk result (Only (M.state m.new).content (M.state m.new).may_leave) }
    ensures spares { SparesFrom 1 (M.state m.old) (M.state m.new) }
    ensures follows { M.follows m.old m.new }
{
    m.write(0, block)?;
    m.flush()
}

/// Puts the first sector twice, and makes it durable each time.
///
/// At the end a cut leaves what was put last. It could have left what was put first, and at no
/// moment did it leave anything new in another sector.
///
/// # Errors
///
/// `MediumFault` where the medium refuses a call.
pub fn put_twice(
    m: &mut Remembering,
    first: &[u8; 512],
    last: &[u8; 512],
) -> Result<(), MediumFault>
    requires { 0 < (state_of m.old).size }
    ensures spares { SparesFrom 1 (state_of m.old) (state_of m.new) }
    ensures each { EachMoment (λ at. EachCut (λ image. (s : ℕ) → 1 ≤ s
        → (state_of m.old).may_leave s (image s)) (sim.state_of at))
        (length m.old.earlier) m.new.earlier }
    ensures last { OnOk result ((image : Image) → CutLeaves (state_of m.new).may_leave image
        → image 0 ≡ last.now) }
    ensures first { OnOk result ((image : Image) → Holds 0 first.now (state_of m.old).content image
        → (state_of m.new).left_since (state_of m.old).calls image) }
{
    put(m, first)?;
    put(m, last)
}
