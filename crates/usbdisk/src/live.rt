//! An image file of any size, served line by line: what the program `usbdisk_live` does.

mod file;
mod missing;
mod player;
mod program;
mod serving;
mod starting;
mod streams;

pub use file::FileWindow;
pub use player::{FileDisk, TRANSFER};
pub use program::{live_command, run_live};
pub use serving::serve_file;
pub use starting::DiskOptions;
pub use streams::Streams;
