//! The making of an image, and its recovery after any loss of power, in both formats.
#![tactic(auto)]

mod clearing;
mod copy_step;
mod copying;
mod format_fault;
mod formatting;
mod found;
mod image_plan;
mod image_stage;
mod inspecting;
mod inspection;
mod laying;
mod migration;
mod new_image;
mod recovered;
mod recovered_medium;
mod recovery;
mod sectors;
mod start_fault;
mod start_point;
mod start_steps;
mod starting;
mod surveying;

pub use format_fault::FormatFault;
pub use formatting::{format, format2, make, sizes_of, sizes_with};
pub use inspection::{Inspection, inspect};
pub use laying::lay_log;
pub use migration::migrate;
pub use recovered::Recovered;
pub use recovered_medium::RecoveredMedium;
pub use recovery::recover;
pub use sectors::{clear, write_through};
pub use start_fault::StartFault;
pub use starting::Starting;
