//! The logical unit of a disk: a direct access block device (SPC-4, SBC-3) over a store that keeps
//! whole writes when power is lost.
//!
//! A command is checked (`Unit::intend` tells what it is about to move) and then carried out by
//! `Unit::carry_out`, which answers data or a sense. `Unit::work` makes a step in the background,
//! which works towards rest or ahead; `Unit::tick` makes one towards rest.
#![tactic(auto)]

mod checks;
mod commands;
mod fault;
mod laws;
mod need;
mod parsed;
mod pending;
mod progress;
mod reading;
mod retiring;
mod start;
mod steps;
mod store_calls;
mod transfers;
mod unit;

pub use blocks::{RecoveredMedium, StartError, StartFault, Work};
pub use laws::{pending_laws, unit_laws};
pub use need::Need;
pub use progress::{Progress, Want};
pub use reading::HomeSectors;
pub use retiring::Retiring;
pub use scsi_commands::{Command, Identity, Sense};
pub use unit::Unit;

/// What a command is about to move, or the sense with which it is refused.
pub type Intent = scsi::Intent<Sense>;
