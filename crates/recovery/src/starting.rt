//! A start, call by call.
ghost use Rattle.std.specs.Prelude.{◌≡◌, ◌<◌, ℕ, List, Ok, Err, IfOk};
ghost use Rattle.std.proofs.Math.Nat.{le_refl};
ghost use Rattle.medium.specs.Tally.{none};
ghost use Rattle.medium.proofs.Moments.{at_exit};
ghost use Rattle.recovery.specs.Causes.{start_fault_of};
ghost use Rattle.recovery.specs.Starting.{EndsStart, IsStarting, start_left, CanStart, IsStartStep};
ghost use Rattle.recovery.specs.Starting.{start_kind, stage_at};
ghost use Rattle.recovery.specs.HoldsStart.{HoldsStart, StartView, MayStart};
ghost use Rattle.recovery.specs.Recovered.{FitsRecovered};
ghost use Rattle.recovery.specs.declared.start_point.StartPoint.TheVariants.{Refused};

use crate::copy_step::CopyStep;
use crate::copying::{copy_made, first_step, kind_of_copy, next_copy};
use crate::start_point::StartPoint;
use crate::start_steps::{
    answer_of, behind_head, behind_super, behind_survey, first_read, put_head,
};
use crate::surveying::Surveying;
use crate::{Recovered, StartFault};
use medium::{Call, Machine, Medium, MediumFault};

/// A start, which says each of its calls: a flush, the reads of super and head, those that find the
/// records that are whole, the copies of their blocks home, a flush, the new head and a flush.
///
/// Whoever makes them in order, on a medium of so many sectors, does what `recover` does. A refused
/// call ends it. It holds no log and takes no memory: it has 4 KB, for what names the blocks of one
/// record, and its caller lends a sector.
#[derive(Drop)]
pub struct Starting {
    /// How many sectors the medium has.
    pub sectors: u64,
    least: u64,
    stage: StartPoint,
    // Its reader reads the records again that are copied.
    survey: Surveying,
    step: CopyStep,
    ghost goes: { CanStart sectors stage survey step },
}

impl Starting {
    /// The start of an image on a medium of this many sectors.
    pub fn begin<M: Medium>(sectors: u64) -> Starting
        ensures of { (result.sectors ≡ sectors) × (result.least ≡ 0) }
        // Before the first call it and any medium hold what they are to hold.
        ensures held { (m : M) (had : List ℕ) → HoldsStart M.state 0
            (stage_at result.stage result.survey result.step) had m m }
    {
        Starting::begin_at_least::<M>(sectors, 0)
    }

    /// So for an image whose log, where it is of format 1, has at least `least` slots.
    pub(crate) fn begin_at_least<M: Medium>(sectors: u64, least: u64) -> Starting
        ensures of { (result.sectors ≡ sectors) × (result.least ≡ least) }
        ensures held { (m : M) (had : List ℕ) → HoldsStart M.state least
            (stage_at result.stage result.survey result.step) had m m }
    {
        Starting {
            sectors,
            least,
            stage: StartPoint::FlushFirst,
            survey: Surveying::over(),
            step: first_step(0),
        }
    }

    // The kind of the next call.
    fn kind(&self) -> MediumFault
        ensures { result ≡ start_kind (stage_at self.now.stage self.now.survey self.now.step) }
    {
        match self.stage {
            StartPoint::ReadSuper => MediumFault::Read,
            StartPoint::ReadHead(_) => MediumFault::Read,
            StartPoint::Survey(_) => MediumFault::Read,
            StartPoint::Copy(_) => kind_of_copy(&self.survey.reader, &self.step),
            StartPoint::WriteHead(_) => MediumFault::Write,
            _ => MediumFault::Flush,
        }
    }

    /// What came of it, once no call is left: what is known of the medium, or why it is refused.
    ///
    /// # Errors
    ///
    /// Those of `recover`.
    pub fn end<M: Medium>(&self) -> Result<Recovered, StartFault>
        requires { start_left (stage_at self.now.stage self.now.survey self.now.step) ≡ none }
        ensures ends { (least : ℕ) (start m : M) (had : List ℕ)
            → HoldsStart M.state least (stage_at self.now.stage self.now.survey self.now.step)
            had start m
            → EndsStart least (M.state start) (M.state m) result }
        // Whatever was read, what it answers fits.
        ensures fits { IfOk result (FitsRecovered self.now.sectors) }
    {
        match self.stage {
            StartPoint::Started(answer) => Ok(answer),
            StartPoint::Refused(fault) => Err(fault),
            _ => Err(StartFault::BadSuper),
        }
    }
}

impl<M: Medium> Machine<M> for Starting {
    ghost View = { StartView M };

    ghost fits = { λ s size. s.sectors ≡ size };

    ghost holds = { λ s had m view. (s.least ≡ view.least)
        × HoldsStart M.state view.least (stage_at s.stage s.survey s.step) had view.start m };

    ghost may = { λ view image. MayStart (M.state view.start) image };

    ghost reads = { λ s. s.sectors };

    ghost ends = { λ s. s.sectors };

    ghost cost = { λ s. start_left (stage_at s.stage s.survey s.step) };

    ghost exact = { ⊥ };

    ghost due = { λ s. IsStarting (stage_at s.stage s.survey s.step) };

    ghost after = { λ s got t. (t.sectors ≡ s.sectors) × (t.least ≡ s.least)
        × IsStartStep s.sectors s.least (stage_at s.stage s.survey s.step) got
        (stage_at t.stage t.survey t.step) };

    ghost gone = { λ s t. (t.sectors ≡ s.sectors) × (t.least ≡ s.least)
        × (t.stage ≡ Refused (start_fault_of (start_kind
        (stage_at s.stage s.survey s.step)))) };

    fn next(&self, sector: &mut [u8; 512]) -> Option<Call> {
        match self.stage {
            StartPoint::FlushFirst => Some(Call::Flush),
            StartPoint::ReadSuper => Some(Call::Read(0)),
            StartPoint::ReadHead(_) => Some(Call::Read(1)),
            StartPoint::Survey(_) => self.survey.call::<M>(sector),
            StartPoint::Copy(_) => next_copy::<M>(&self.survey.reader, &self.step, sector),
            StartPoint::FlushCopies(_) => Some(Call::Flush),
            StartPoint::WriteHead(found) => {
                put_head(&found, sector);
                Some(Call::Write(1))
            }
            StartPoint::FlushHead(_) => Some(Call::Flush),
            StartPoint::Started(_) => None,
            StartPoint::Refused(_) => None,
        }
    }

    fn made(&mut self, sector: &[u8; 512]) {
        match self.stage {
            StartPoint::FlushFirst => self.stage = first_read(self.sectors),
            StartPoint::ReadSuper => self.stage = behind_super(sector, self.sectors),
            StartPoint::ReadHead(sizes) => {
                self.stage = behind_head(sector, &sizes, self.least, &mut self.survey);
            }
            StartPoint::Survey(head) => {
                Machine::<M>::made(&mut self.survey, sector);
                if self.survey.left == 0 {
                    self.stage = behind_survey(head, &mut self.survey, &mut self.step);
                }
            }
            StartPoint::Copy(found) => {
                copy_made(&mut self.survey.reader, &mut self.step, sector);
                if self.step.left == 0 {
                    self.stage = StartPoint::FlushCopies(found);
                }
            }
            StartPoint::FlushCopies(found) => self.stage = StartPoint::WriteHead(found),
            StartPoint::WriteHead(found) => self.stage = StartPoint::FlushHead(found),
            StartPoint::FlushHead(found) => self.stage = StartPoint::Started(answer_of(&found)),
            StartPoint::Started(_) => {}
            StartPoint::Refused(_) => {}
        }
    }

    fn refused(&mut self) {
        self.stage = StartPoint::Refused(StartFault::from(self.kind()));
    }

    ghost leaves = { λ s had m view holds image cut each. at_exit _ (M.state view.start)
        (M.state m) (M.sound m) (holds.1.leaves.cuts each) image cut };

    ghost room = { λ s size fits. rw fits (le_refl size) };

    ghost goes_on = { λ s t got due after. record {
      reads_stay = after.0;
      ends_stay = after.0;
      fits_still = λ size fits. rw after.0 fits;
    } };
}
