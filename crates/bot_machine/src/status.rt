//! Command status wrappers.
ghost use Rattle.std.specs.Prelude.{◌≡◌};
ghost use Rattle.spec.specs.StatusWrapper.{status_wrapper};

use byteorder::{ByteOrder, LittleEndian};
use spec::Status;

/// The command status wrapper of the command with this tag (Bulk-Only Transport 1.0, 5.2).
#[tactic(auto, unfolding(spec::specs::StatusWrapper::status_wrapper))]
pub fn write_csw(tag: u32, residue: u32, status: Status) -> [u8; 13]
    ensures { result ≡ status_wrapper tag residue status }
{
    let mut bytes = [0; 13];
    bytes[..4].copy_from_slice(b"USBS");
    LittleEndian::write_u32(&mut bytes[4..], tag);
    LittleEndian::write_u32(&mut bytes[8..], residue);
    bytes[12] = status as u8;
    bytes
}
