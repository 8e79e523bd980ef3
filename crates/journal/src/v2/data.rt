//! The data places of format 2: a block whose first 8 bytes make room for the stamp of its record.
ghost use Rattle.std.specs.Prelude.{◌≡◌, IsTrue, ◌↔◌};
ghost use Rattle.journal.specs.Format2.{place_bytes};

use byteorder::{ByteOrder, LittleEndian};

/// The bytes of a data place for this block.
pub fn data_sector(stamp: u64, block: &[u8; 512]) -> [u8; 512]
    ensures { result ≡ place_bytes stamp block.now }
{
    let mut sector = *block;
    put_stamp(stamp, &mut sector);
    sector
}

/// Makes the bytes of a block those of its data place.
#[tactic(auto, unfolding(crate::specs::Format2::place_bytes))]
pub(crate) fn put_stamp(stamp: u64, sector: &mut [u8; 512])
    ensures { sector.new ≡ place_bytes stamp sector.old }
{
    LittleEndian::write_u64(sector, stamp);
}

/// Whether these are the bytes of a data place with this stamp, for whatever block.
pub fn is_data(stamp: u64, sector: &[u8; 512]) -> bool
    ensures { IsTrue result ↔ sector.now ≡ place_bytes stamp sector.now }
{
    if data_sector(stamp, sector) == *sector {
        true
    } else {
        false
    }
}
