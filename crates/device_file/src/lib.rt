//! A device that is an open file: what it is asked to carry out, in order.
#![tactic(auto)]

mod buffer;
mod carrying;
mod copying;
mod existing;
mod fault;
mod file;
mod meter;
mod moving;
mod opening;
mod putting;
mod run;
mod story;
mod system;

pub use buffer::CopyBuffer;
pub use carrying::{carry_out, write_sector};
pub use copying::{CopyFault, CopyRange, copy_sectors};
pub use existing::Existing;
pub use fault::{FileCall, FileFault};
pub use file::DeviceFile;
pub use meter::Meter;
pub use moving::carry_moved;
pub use opening::{FirstSectors, OpenFault};
pub use run::Run;
pub use system::{SystemFile, create, open};
