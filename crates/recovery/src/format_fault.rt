//! Why a format is refused.
use medium::MediumFault;
use thiserror::Error;

#[derive(Clone, Copy, Debug, PartialEq, Eq, Error)]
pub enum FormatFault {
    /// A size is out of its limits, or the medium is too short for the sizes.
    #[error("bad sizes")]
    BadSize = 1,
    /// The medium refused a call.
    #[error("the medium refused a call")]
    Medium = 2,
}

impl From<MediumFault> for FormatFault {
    ghost use Rattle.std.specs.Prelude.{◌≡◌};
    ghost use Rattle.recovery.specs.declared.format_fault.FormatFault.TheVariants.{Medium};

    ghost from_gives = { λ _ fault. fault ≡ Medium };

    fn from(_: MediumFault) -> FormatFault {
        FormatFault::Medium
    }
}
