//! An inspection, call by call.
ghost use Rattle.std.specs.Prelude.{◌≡◌, ◌<◌, ℕ, List};
ghost use Rattle.std.proofs.Math.Nat.{le_refl};
ghost use Rattle.medium.specs.Medium.{CutLeaves};
ghost use Rattle.medium.specs.Tally.{none};
ghost use Rattle.recovery.specs.Starting.{CanLook, look_at, look_left, IsLooking, IsLookStep};
ghost use Rattle.recovery.specs.Starting.{EndsLook};
ghost use Rattle.recovery.specs.HoldsStart.{HoldsLook};
ghost use Rattle.recovery.specs.declared.start_point.StartPoint.TheVariants.{Refused};
ghost use Rattle.recovery.specs.declared.start_fault.StartFault.TheVariants.{Read};

use crate::start_point::StartPoint;
use crate::start_steps::{behind_head, behind_super, first_read};
use crate::surveying::Surveying;
use crate::{Inspection, StartFault};
use medium::{Call, Machine, Medium};

/// The reading half of a start: super, head, and what finds the records that are whole.
#[derive(Drop)]
pub(crate) struct Inspecting {
    sectors: u64,
    stage: StartPoint,
    survey: Surveying,
    ghost goes: { CanLook sectors stage survey },
}

impl Inspecting {
    /// The look at an image on a medium of this many sectors.
    pub(crate) fn begin<M: Medium>(sectors: u64) -> Inspecting
        ensures of { result.sectors ≡ sectors }
        // Before the first call it and such a medium hold what they are to hold.
        ensures held { (m : M) (had : List ℕ) → sectors ≡ (M.state m).size
            → HoldsLook M.state 0 (look_at result.stage result.survey) had m m }
    {
        Inspecting {
            sectors,
            stage: first_read(sectors),
            survey: Surveying::over(),
        }
    }

    /// What came of it, once no call is left.
    ///
    /// # Errors
    ///
    /// Those of `inspect`.
    pub(crate) fn end<M: Medium>(self) -> Result<Inspection, StartFault>
        requires { look_left (look_at self.stage self.survey) ≡ none }
        ensures { (start m : M) (had : List ℕ)
            → HoldsLook M.state 0 (look_at self.stage self.survey) had start m
            → EndsLook (M.state start) (M.state m) result }
    {
        match self.stage {
            StartPoint::Survey(head) => Ok(Inspection {
                sizes: self.survey.reader.sizes,
                head,
                waiting: self.survey.waiting,
            }),
            StartPoint::Refused(fault) => Err(fault),
            _ => Err(StartFault::BadSuper),
        }
    }
}

impl<M: Medium> Machine<M> for Inspecting {
    ghost View = { M };

    ghost fits = { λ s size. s.sectors ≡ size };

    ghost holds = { λ s had m view. HoldsLook M.state 0 (look_at s.stage s.survey) had view m };

    ghost may = { λ view image. CutLeaves (M.state view).may_leave image };

    ghost reads = { λ s. s.sectors };

    ghost ends = { λ s. s.sectors };

    ghost cost = { λ s. look_left (look_at s.stage s.survey) };

    ghost exact = { ⊥ };

    ghost due = { λ s. IsLooking (look_at s.stage s.survey) };

    ghost after = { λ s got t. (t.sectors ≡ s.sectors)
        × IsLookStep s.sectors (look_at s.stage s.survey) got (look_at t.stage t.survey) };

    ghost gone = { λ s t. (t.sectors ≡ s.sectors) × (t.stage ≡ Refused Read) };

    fn next(&self, sector: &mut [u8; 512]) -> Option<Call> {
        match self.stage {
            StartPoint::ReadSuper => Some(Call::Read(0)),
            StartPoint::ReadHead(_) => Some(Call::Read(1)),
            StartPoint::Survey(_) => self.survey.call::<M>(sector),
            _ => None,
        }
    }

    fn made(&mut self, sector: &[u8; 512]) {
        match self.stage {
            StartPoint::ReadSuper => self.stage = behind_super(sector, self.sectors),
            StartPoint::ReadHead(sizes) => {
                self.stage = behind_head(sector, &sizes, 0, &mut self.survey);
            }
            StartPoint::Survey(_) => Machine::<M>::made(&mut self.survey, sector),
            _ => {}
        }
    }

    fn refused(&mut self) {
        self.stage = StartPoint::Refused(StartFault::Read);
    }

    ghost leaves = { λ s had m view holds image cut. λ x. holds.reads.only.quiet.sets_shrink x
        (image x) (cut x) };

    ghost room = { λ s size fits. rw fits (le_refl size) };

    ghost goes_on = { λ s t got due after. record {
      reads_stay = after.0;
      ends_stay = after.0;
      fits_still = λ size fits. rw after.0 fits;
    } };
}
