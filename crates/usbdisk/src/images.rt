//! Image files of any size: what the program `usbdisk_image` does.

mod copying;
mod exporting;
mod gauge;
mod image;
mod importing;
mod laws;
mod left;
mod making;
mod migrating;
mod opening;
mod program;
mod showing;
mod task;
mod text;

pub use exporting::{RecoveredImage, export_blocks, export_file, recover_in_window};
pub use image::FilePlace;
pub use importing::import_blocks;
pub use laws::{copy_laws, making_laws};
pub use left::LeftFiles;
pub use making::ask_to_be;
pub use migrating::migrate_file;
pub use program::{command, run_program};
pub use showing::show_file;
