//! The clearing of sectors, call by call.
ghost use Rattle.std.specs.Prelude.{◌≡◌, ◌<◌, ◌≤◌, ◌+◌, ◌-◌};
ghost use Rattle.recovery.specs.Calls.{cleared_at, IsBetween};
ghost use Rattle.recovery.specs.NewImage.{ClearView, HoldsCleared};
ghost use Rattle.medium.specs.Medium.{CutLeaves};

use medium::{Call, Machine, Medium};

/// The sectors from one up to the end are to be cleared.
#[derive(Drop)]
pub(crate) struct Clearing {
    pub at: u64,
    pub end: u64,
}

impl<M: Medium> Machine<M> for Clearing {
    ghost View = { ClearView M };

    ghost fits = { λ s size. s.end ≤ size };

    ghost holds = { λ s had m view. HoldsCleared M.state s.at s.end view m };

    ghost may = { λ view image. CutLeaves
        (cleared_at (IsBetween view.from view.end) (M.state view.start).may_leave) image };

    ghost reads = { λ s. 0 };

    ghost ends = { λ s. s.end };

    ghost cost = { λ s. record { reads = 0; writes = s.end - s.at; flushes = 0 } };

    ghost exact = { Unit {0} };

    ghost due = { λ s. s.at < s.end };

    ghost after = { λ s got t. (t.at ≡ s.at + 1) × (t.end ≡ s.end) };

    ghost gone = { λ s t. t ≡ s };

    fn next(&self, sector: &mut [u8; 512]) -> Option<Call> {
        if self.at >= self.end {
            return None;
        }
        *sector = [0; 512];
        Some(Call::Write(self.at))
    }

    fn made(&mut self, _: &[u8; 512]) {
        self.at += 1;
    }

    fn refused(&mut self) {}

    ghost leaves = { λ s had m view holds image cut. λ x. holds.within x (image x) (cut x) };

    ghost room = { λ s size fits. fits };

    ghost goes_on = { λ s t got due after. record {
      reads_stay = λ i. 0;
      ends_stay = after.1;
      fits_still = λ size fits. rw after.1 fits;
    } };
}
