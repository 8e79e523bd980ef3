//! The writing of a new image, call by call.
ghost use Rattle.std.specs.Prelude.{◌≡◌, ◌<◌, ◌≤◌};
ghost use Rattle.recovery.specs.NewImage.{ImageView, HoldsImage, image_left, IsAfter, IsLive};
ghost use Rattle.recovery.specs.NewImage.{MayBeImage, each_midway};
ghost use Rattle.recovery.specs.declared.image_stage.ImageStage.TheVariants.{Refused};

use crate::image_plan::ImagePlan;
use crate::image_stage::ImageStage;
use medium::{Call, Machine, Medium};

/// An image is to be written: zeros in place of the super and a flush, zeros up to the end, the
/// head and a flush, the super and a flush. In place of another image, whose super stays for so
/// long, it begins with the zeros, and flushes these too.
#[derive(Drop)]
pub(crate) struct NewImage {
    pub plan: ImagePlan,
    pub stage: ImageStage,
}

impl<M: Medium> Machine<M> for NewImage {
    ghost View = { ImageView M };

    ghost fits = { λ s size. (s.plan.end ≤ size) × IsLive s.stage };

    ghost holds = { λ s had m view. HoldsImage M.state s.stage s.plan view m };

    ghost may = { λ view image. MayBeImage view.plan view.under (M.state view.start) image };

    ghost reads = { λ s. 0 };

    ghost ends = { λ s. s.plan.end };

    ghost cost = { λ s. image_left s.stage s.plan.end };

    ghost exact = { Unit {0} };

    ghost due = { λ s. 0 < (image_left s.stage s.plan.end).flushes };

    ghost after = { λ s got t. (t.plan ≡ s.plan) × IsAfter s.stage s.plan.end t.stage
        × IsLive t.stage };

    ghost gone = { λ s t. (t.plan ≡ s.plan) × (t.stage ≡ Refused) };

    fn next(&self, sector: &mut [u8; 512]) -> Option<Call> {
        match self.stage {
            ImageStage::Wipe => {
                *sector = [0; 512];
                Some(Call::Write(0))
            }
            ImageStage::FlushWipe => Some(Call::Flush),
            ImageStage::Zeros(at, _) if at < self.plan.end => {
                *sector = [0; 512];
                Some(Call::Write(at))
            }
            ImageStage::Zeros(_, flush) if flush => Some(Call::Flush),
            ImageStage::Zeros(_, _) => {
                *sector = self.plan.head.encode();
                Some(Call::Write(1))
            }
            ImageStage::FlushHead => Some(Call::Flush),
            ImageStage::Super => {
                *sector = self.plan.sizes.encode();
                Some(Call::Write(0))
            }
            ImageStage::FlushSuper => Some(Call::Flush),
            ImageStage::Made => None,
            ImageStage::Refused => None,
        }
    }

    fn made(&mut self, _: &[u8; 512]) {
        self.stage = match self.stage {
            ImageStage::Wipe => ImageStage::FlushWipe,
            ImageStage::FlushWipe => ImageStage::Zeros(1, false),
            ImageStage::Zeros(at, flush) if at < self.plan.end => ImageStage::Zeros(at + 1, flush),
            ImageStage::Zeros(at, true) => ImageStage::Zeros(at, false),
            ImageStage::Zeros(_, false) => ImageStage::FlushHead,
            ImageStage::FlushHead => ImageStage::Super,
            ImageStage::Super => ImageStage::FlushSuper,
            ImageStage::FlushSuper => ImageStage::Made,
            ImageStage::Made => ImageStage::Made,
            ImageStage::Refused => ImageStage::Refused,
        };
    }

    fn refused(&mut self) {
        self.stage = ImageStage::Refused;
    }

    ghost leaves = { λ s had m view holds image cut. rw holds.plan_is (each_midway s.plan view.under
        s.stage (M.state view.start) image (holds.shows.1 image cut)) };

    ghost room = { λ s size fits. fits.0 };

    ghost goes_on = { λ s t got due after. record {
      reads_stay = λ i. 0;
      ends_stay = rw after.0 (λ i. s.plan.end);
      fits_still = λ size fits. (rw after.0 fits.0, after.2);
    } };
}
