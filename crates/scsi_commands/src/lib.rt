//! SCSI command descriptor blocks (SPC-4 4.2, SBC-3 5): from the bytes of a command block to the
//! command of a direct access block device, or to the sense of the first refusal.
//!
//! Sense data of SCSI Primary Commands: why a command failed, as key, code and qualifier and as
//! 18 bytes, and the sense that a logical unit keeps for REQUEST SENSE.
//!
//! What a disk says of itself and of its write cache: INQUIRY data of SCSI Primary Commands and the
//! caching mode page of SCSI Block Commands.
#![tactic(auto)]

mod blocks;
mod caching;
mod codes;
mod decode;
mod device;
mod form;
mod identification;
mod inquiry;
mod laws;
mod waiting;

pub use caching::{CACHING, mode_select, mode_sense};
pub use codes::Sense;
pub use decode::{operation_code, parse};
pub use identification::Identity;
pub use laws::sense_codes;
pub use scsi::{BlockRange, Command, SenseKey, Transfer};
pub use waiting::Kept;
