//! The error of the start of a store, which gives the medium back.
use medium::Medium;
use recovery::StartFault;

/// Why a store did not start, and the medium that it was to stand on.
#[derive(Drop)]
pub struct StartError<M: Medium> {
    pub fault: StartFault,
    pub medium: M,
}
