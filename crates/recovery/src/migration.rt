//! The migration of an image of format 1 to format 2.
ghost use Rattle.std.specs.Prelude.{◌≡◌, ◌<◌, ◌≤◌, ◌+◌, ◌*◌, ◌^◌, true, IfOk, IfErr};
ghost use Rattle.medium.specs.Moments.{IsFlushed};
ghost use Rattle.journal.specs.Places.{sectors_of, migrated};
ghost use Rattle.journal.specs.Formats.{shape_of};
ghost use Rattle.recovery.specs.Recovered.{EndsMigration, CanBecomeTwo, IsMigrationBy};
ghost use Rattle.recovery.specs.Recovered.{IsMigrationRefusal};
ghost use Rattle.recovery.specs.Recovered.{MigrationLeaves, IsMadeTwo, StaysFresh};
ghost use Rattle.recovery.specs.Calls.{Writes, AreMade, zeros_and_head};

use crate::image_plan::ImagePlan;
use crate::image_stage::ImageStage;
use crate::new_image::NewImage;
use crate::recovery::recover_at_least;
use crate::{Recovered, StartFault};
use journal::Head;
use medium::{Medium, MediumFault, drive};

/// Recovers an image and, where it is of format 1, makes it one of format 2 with the same blocks:
/// zeros to each sector of its log, a flush, the head, a flush, the super and a flush. It answers
/// what is there then, and whether it was of format 1. It takes no memory.
///
/// # Errors
///
/// Those of `recover`; and `LogTooSmall` for a log of format 1 with fewer than 5 slots, which comes
/// before `StampsUsedUp`. A fault of the image is found before the first write.
#[tactic(auto, using(crate::proofs::WholeRecovery::recovery_leaves))]
pub fn migrate<M: Medium>(m: &mut M) -> Result<(Recovered, bool), StartFault>
    // A function of the contents: what they stood for, whether or not other images were allowed.
    ensures ok { IfOk result (λ answer.
        IsMigrationBy answer.1 (M.state m.old) (M.state m.new) answer.0) }
    // Its calls come in order, and behind them no image carries the next stamp or a later one.
    ensures ends { IfOk result (λ answer.
        EndsMigration M.state answer.1 m.old m.new answer.0) }
    // Contents that stand for an array, with a stamp left and at least 5 slots, are refused by the
    // device alone.
    ensures err { IfErr result (IsMigrationRefusal (M.state m.old) (M.state m.new)) }
    // At each moment, good or refused.
    ensures leaves { MigrationLeaves (M.state m.old) (M.state m.new) }
    ensures follows { M.follows m.old m.new }
{
    let found = recover_at_least(m, 5)?;
    if found.sizes.format.migrates() {
        Ok((make_two(m, &found)?, true))
    } else {
        Ok((found, false))
    }
}

// Makes what was recovered of format 1 an image of format 2. The log is wiped and flushed before
// the super is of format 2, so that no old bytes are ever read as a record of it.
fn make_two<M: Medium>(m: &mut M, found: &Recovered) -> Result<Recovered, MediumFault>
    requires { CanBecomeTwo found.now (M.state m.old) }
    // The answer tells what was made.
    ensures ok { IfOk result (λ answer.
        (shape_of answer.sizes ≡ migrated (shape_of found.now.sizes))
        × (answer.next ≡ found.now.next)
        × IsMadeTwo (shape_of found.now.sizes) found.now.next (M.state m.new)
        × AreMade M.state (zeros_and_head 2 true found.now.sizes.home) m.old m.new) }
    // A write for each sector of the log, a flush, the head, a flush, the super and a flush.
    ensures writes { Writes
        (StaysFresh (shape_of found.now.sizes) found.now.next (M.state m.old).content)
        found.now.sizes.home (found.now.sizes.home + 3) (M.state m.old) (M.state m.new) result }
    ensures follows { M.follows m.old m.new }
{
    let sizes = found.sizes.migrated();
    let plan = ImagePlan {
        sizes,
        head: Head::new(found.next),
        end: found.sizes.home,
    };
    let mut image = NewImage {
        plan,
        stage: ImageStage::Zeros(2, true),
    };
    drive(m, &mut image, &mut [0; 512])?;
    Ok(Recovered {
        sizes,
        next: found.next,
    })
}
