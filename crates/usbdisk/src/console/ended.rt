//! How a command of a program ended, or why it was not done, and what it has left of its files.
ghost use Rattle.std.specs.Prelude.{◌≡◌};

use crate::console::refusal::Refusal;
use std::io::Write;

/// How a command ended, and what it left: the files that it opened or made, exactly as they were
/// left. Nothing is behind them for a caller to do but to let go of them, which closes them.
#[derive(Drop)]
pub struct Ended<F> {
    /// The exit status.
    pub status: u8,
    pub left: F,
}

/// Why what was asked for was not done, and what was left.
#[derive(Drop)]
pub struct Stopped<F> {
    pub refusal: Refusal,
    pub left: F,
}

impl<F> Stopped<F> {
    ghost use Rattle.usbdisk.specs.console.Status.{status_of};

    /// With what was left.
    pub fn with(refusal: Refusal, left: F) -> Stopped<F>
        ensures { result ≡ record { refusal = refusal; left = left } }
    {
        Stopped { refusal, left }
    }

    /// Writes why, as `Refusal::report` does, and tells how the command ended.
    pub fn report<W: Write>(self, name: Option<&str>, err: &mut W) -> Ended<F>
        ensures { result ≡ record { status = status_of self.refusal; left = self.left } }
    {
        self.refusal.report(name, err);
        Ended {
            status: self.refusal.status(),
            left: self.left,
        }
    }
}

/// Nothing was opened or made yet.
impl<F: Default> From<Refusal> for Stopped<F> {
    ghost from_gives = { λ refusal stopped.
        (stopped.refusal ≡ refusal) × F.is_default stopped.left };

    fn from(refusal: Refusal) -> Stopped<F> {
        Stopped::with(refusal, F::default())
    }
}
