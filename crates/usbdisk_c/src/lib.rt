//! The library for C: the exports, one for each call of include/usbdisk.h, which tells what each
//! does.
#![tactic(auto)]

mod bus_exports;
mod codes;
mod exports;
mod image_exports;
mod look;
mod store_exports;

pub use bus_exports::{usbdisk_ahead, usbdisk_idle, usbdisk_in, usbdisk_out, usbdisk_setup};
pub use exports::{
    usbdisk_done, usbdisk_memory, usbdisk_memory_kept, usbdisk_memory_to_format,
    usbdisk_memory_to_migrate, usbdisk_next, usbdisk_start, usbdisk_state, usbdisk_stop,
    usbdisk_version,
};
pub use image_exports::{usbdisk_format, usbdisk_lay_log, usbdisk_migrate};
pub use look::{usbdisk_log_of, usbdisk_look};
pub use store_exports::{
    usbdisk_store_read, usbdisk_store_sizes, usbdisk_store_start, usbdisk_store_sync,
    usbdisk_store_write,
};
