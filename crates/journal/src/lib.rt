//! The log of a medium: where each of its bytes lies, which records are whole, and for what array
//! and next stamp an image stands.
//!
//! Sector 0 is the super, sector 1 the head. Behind them stand the slots of the log, of 50 sectors
//! each in format 1 and 249 in format 2, and behind the log the blocks at home. A number has eight
//! bytes, the lowest byte first.
#![tactic(auto)]

mod copies;
mod fields;
mod firsts;
mod head;
mod laws;
mod log_format;
mod naming_stage;
mod places;
mod reader;
mod record;
mod record_parts;
mod super_fault;
mod super_sector;
pub mod v1;
pub mod v2;

pub use copies::{LoggedCopy, put_first, read_copy};
pub use fields::are_rising;
pub use firsts::{Firsts, first_bytes};
pub use head::Head;
pub use laws::{image_laws, layout_laws};
pub use log_format::LogFormat;
pub use naming_stage::NamingStage;
pub use places::slot_of;
pub use reader::RecordReader;
pub use record::Record;
pub use record_parts::{NewRecord, before_barrier, copy_place, parts, slot_place, write_part};
pub use super_fault::SuperFault;
pub use super_sector::Super;
pub use v1::{Commit, Descriptor, commit_place, data_place, place_of, whole_record};
pub use v2::{
    Commit as Commit2, Descriptor as Descriptor2, data_sector as data_sector2, is_data as is_data2,
    place_of as place_of2,
};
