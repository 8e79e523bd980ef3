//! A look at an image, which changes nothing.
ghost use Rattle.std.specs.Prelude.{IfOk, IfErr};
ghost use Rattle.recovery.specs.Causes.{IsInspected, OnlyLooks, IsLookRefusal};

use crate::StartFault;
use crate::inspecting::Inspecting;
use arrayvec::ArrayVec;
use journal::Super;
use medium::{Medium, drive};

/// What an image holds beside its blocks at home.
#[derive(Drop)]
pub struct Inspection {
    /// The format, how many blocks and log slots there are, and where home begins.
    pub sizes: Super,
    /// The stamp of the head. The first record that waits has it, if one waits.
    pub head: u64,
    /// How many blocks each record has that waits to go home, the oldest first.
    pub waiting: ArrayVec<u8, 64>,
}

/// Reads what an image holds beside its blocks at home: its sizes, its head, and how many blocks
/// each record has that waits. It makes reads alone, so nothing is changed, and takes no memory.
/// Each read names sector 0, or one before the first block at home.
///
/// # Errors
/// The faults of the image that `recover` names, in the same order. That no stamp is left is none
/// here: it says nothing of what the image stands for.
pub fn inspect<M: Medium>(m: &mut M) -> Result<Inspection, StartFault>
    ensures ok { IfOk result (IsInspected (M.state m.old)) }
    ensures err { IfErr result (IsLookRefusal (M.state m.old) (M.state m.new)) }
    ensures looks { OnlyLooks (M.state m.old) (M.state m.new) }
    ensures follows { M.follows m.old m.new }
{
    let mut inspecting = Inspecting::begin::<M>(m.sectors());
    let _ = drive(m, &mut inspecting, &mut [0; 512]);
    inspecting.end::<M>()
}
