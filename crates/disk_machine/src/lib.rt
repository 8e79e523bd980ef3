//! A disk that says what its device is to do next, while packets come.
//!
//! A packet is acknowledged once its bytes are all there, and its command goes on by steps, as far
//! as the device has come. include/usbdisk.h tells the numbers of the answers.
#![tactic(auto)]

mod ahead;
mod codes;
mod device;
mod going;
mod identity;
mod idle;
mod lack;
mod laws;
mod look;
mod machine;
mod packets;
mod play;
mod refused;
mod resting;
mod room;
mod run;
mod tokens;
mod told;
mod transfers;
mod wanted;

pub use codes::{
    ACK, BAD_IDENTITY, BAD_LENGTH, BAD_PACKET_SIZE, BAD_RANGE, BAD_SIZES, DEAD, EMPTY, NAK, STALL,
    STARTED, TOO_LONG, UNREAD, number_of,
};
pub use identity::UsbDiskIdentity;
pub use lack::Lack;
pub use laws::machine_laws;
pub use look::{UsbDiskLayout, layout_of, super_code};
pub use machine::DiskMachine;
pub use room::room_for;
