//! When calls are refused: a fuse, one failure, and the power.
ghost use Rattle.std.specs.Prelude.{◌≡◌, None, false};

use crate::fault::MediumFault;

/// The fuse counts the writes and flushes that still happen, and `fail` the calls up to the one
/// that fails.
#[derive(Clone, Copy, Debug)]
pub struct Power {
    pub fuse: Option<u64>,
    pub fail: Option<u64>,
    pub off: bool,
}

impl Power {
    ghost use Rattle.medium.specs.Power.{powered, admits, after_call};

    /// The power is on, and nothing is to be refused.
    pub(crate) fn on() -> Power
        ensures { result ≡ powered }
    {
        Power {
            fuse: None,
            fail: None,
            off: false,
        }
    }

    /// Whether a call of this kind happens, where there is room for it or not.
    pub(crate) fn admit(&mut self, kind: MediumFault, fits: bool) -> bool
        ensures happens { result ≡ admits self.old kind fits }
        ensures after { self.new ≡ after_call self.old kind fits }
    {
        let changes = kind != MediumFault::Read;
        let used_up = changes && self.fuse == Some(0);
        let happens = !self.off && !used_up && self.fail != Some(1) && fits;
        self.off = self.off || used_up;
        self.fail = match self.fail {
            Some(calls) if calls > 1 => Some(calls - 1),
            _ => None,
        };
        if happens && changes {
            self.fuse = self.fuse.map(|writes| writes.saturating_sub(1));
        }
        happens
    }
}
