//! The device side of the bulk-only transport (USB Mass Storage Class Bulk-Only Transport 1.0): a
//! disk over a medium, above the packet level.
#![tactic(auto)]

mod answers;
mod bulk_out;
mod bulk_state;
mod command;
mod disk;
mod event;
mod exchange;
mod lagging;
mod laws;
mod lives;
mod packet_runs;
mod pending;
mod reading;
mod request;
mod run;
mod start;
mod status;
mod table;

pub use answers::Answers;
pub use command::{CbwFault, read_cbw};
pub use disk::Disk;
pub use event::{InAnswer, OutAnswer, SetupAnswer};
pub use lagging::LaggingDisk;
pub use laws::{book_laws, policy_laws};
pub use lives::{DiskSetup, Life, Lives, run_lives, run_lives_by, run_lives_with};
pub use run::{answer_to, run_events};
pub use scsi_unit::{
    HomeSectors, Identity, Need, RecoveredMedium, Retiring, StartError, StartFault, Work,
};
pub use spec::{Answer, Case, Cbw, Endpoint, Event, Outcome, PacketSize, Status, Way};
pub use status::write_csw;
pub use table::{case_of, outcome};
