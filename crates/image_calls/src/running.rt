//! A machine whose calls a device carries out, run by run.
ghost use Rattle.std.specs.Prelude.{◌≤◌};

use crate::carried::Carried;
use crate::run::Run;

/// A machine, and the device that carries out its calls, neighbouring sectors together.
#[derive(Drop)]
pub struct Running<T> {
    pub(crate) carried: Carried<T>,
    pub(crate) run: Run,
    // How many sectors the device was to read last.
    pub(crate) reading: u32,
    ghost some: { 1 ≤ reading },
    ghost few: { reading ≤ 64 },
}
