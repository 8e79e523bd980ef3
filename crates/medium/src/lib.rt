//! Sectors of 512 bytes under a loss of power: what a read gives, and what a cut may leave.
#![tactic(auto)]

mod count;
mod fault;
mod file;
mod file_call;
mod file_story;
mod inlet;
mod kept;
mod laws;
mod machine;
mod medium;
mod medium_call;
mod opened_file;
mod outlet;
mod past;
mod power;
mod remembering;
mod sector_file;
mod sectors;
mod sim;
mod switch;
mod tally;
mod told_file;
mod twice;
mod unflushed;
mod whole;

pub use fault::MediumFault;
pub use file::{FileError, FileMedium};
pub use file_call::{Access, FileCall};
pub use inlet::Inlet;
pub use kept::Kept;
pub use laws::sim_laws;
pub use machine::{Machine, drive};
pub use medium::Medium;
pub use medium_call::{Call, perform};
pub use opened_file::OpenedFile;
pub use outlet::Outlet;
pub use remembering::Remembering;
pub use sector_file::SectorFile;
pub use sim::{SimError, SimMedium};
pub use switch::Switch;
pub use told_file::ToldFile;
pub use twice::put_twice;
pub use whole::{look_whole, put};
