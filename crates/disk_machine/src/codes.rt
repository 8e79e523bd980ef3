//! The numbers that C sees. include/usbdisk.h has the same.
ghost use Rattle.std.specs.Prelude.{◌≡◌};
ghost use Rattle.disk_machine.specs.Codes.{number_of};

use bot_machine::StartFault;

pub const ACK: u32 = 0;

pub const NAK: u32 = 1;

pub const STALL: u32 = 2;

pub const UNREAD: u32 = 2;

pub const DEAD: u32 = 11;

pub const EMPTY: u32 = 16;

pub const STARTED: u32 = 17;

pub const TOO_LONG: u32 = 18;

pub const BAD_IDENTITY: u32 = 19;

pub const BAD_PACKET_SIZE: u32 = 20;

pub const BAD_LENGTH: u32 = 21;

pub const BAD_SIZES: u32 = 22;

pub const BAD_RANGE: u32 = 24;

/// The number of the fault for which a start is refused.
pub fn number_of(fault: StartFault) -> u32
    ensures { result ≡ number_of fault }
{
    match fault {
        StartFault::NoMemory => 1,
        StartFault::Read => 2,
        StartFault::Write => 3,
        StartFault::Flush => 4,
        StartFault::BadSuper => 5,
        StartFault::BadVersion => 6,
        StartFault::BadSize => 7,
        StartFault::BadHead => 8,
        StartFault::StampsUsedUp => 9,
        StartFault::LogTooSmall => 10,
    }
}
