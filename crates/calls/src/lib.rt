//! A disk, a store or the work on an image behind a handle for C: what each export of the static
//! library does with it, and the numbers that it answers. include/usbdisk.h tells them.
#![tactic(auto)]

mod asking;
mod asks;
mod behind;
mod bus;
mod codes;
mod handle;
mod held;
mod idling;
mod imaging;
mod lending;
mod log;
mod memory;
mod moves;
mod options;
mod parts;
mod recover;
mod starting;
mod state;
mod storing;
mod telling;
mod turns;
mod work;

pub use asking::next_call;
pub use asks::UsbDiskCall;
pub use bus::{answer_setup, send_in, take_out};
pub use handle::{Opaque, UsbDisk};
pub use idling::{look_ahead, make_steps};
pub use imaging::{format, lay_log, migrate};
pub use log::{UsbDiskLog, log_of};
pub use memory::{memory_of, memory_to_format, memory_to_migrate};
pub use options::{UsbDiskOptions, UsbDiskPlan};
pub use starting::{start_disk, start_store, stop};
pub use state::tell_state;
pub use storing::{read_blocks, sync, tell_sizes, write_blocks};
pub use telling::tell_done;
