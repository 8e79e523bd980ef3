//! Standard INQUIRY data and the vital product data pages.
ghost use Rattle.std.specs.Prelude.{◌≡◌, ◌+◌, ◌≤◌, ◌++◌, length, take};
ghost use Rattle.scsi_commands.specs.Inquiry.{StaysFrom, told_size};
ghost use Rattle.scsi.specs.Inquiry.{supported_pages, block_limits};

use byteorder::{BigEndian, ByteOrder};

/// The code of the page of supported pages.
pub const SUPPORTED_PAGES: u8 = 0x00;

/// The code of the unit serial number page.
pub const UNIT_SERIAL_NUMBER: u8 = 0x80;

/// The code of the device identification page.
pub const DEVICE_IDENTIFICATION: u8 = 0x83;

/// The code of the block limits page.
pub const BLOCK_LIMITS: u8 = 0xb0;

/// Writes a field behind the first `start` bytes of the buffer, and answers where it ends.
pub fn append(to: &mut [u8; 64], start: usize, field: &[u8]) -> usize
    requires { start + length field.now ≤ 64 }
    ensures end { result ≡ start + length field.now }
    ensures front { take result to.new ≡ take start to.old ++ field.now }
    ensures rest { StaysFrom result to.old to.new }
{
    let end = start + field.len();
    to[start..end].copy_from_slice(field);
    end
}

/// Writes the page of supported pages, and answers its length.
#[tactic(auto, unfolding(scsi::specs::Inquiry::supported_pages))]
pub fn supported_pages(to: &mut [u8; 64]) -> usize
    ensures size { result ≡ 8 }
    ensures data { take 8 to.new ≡ supported_pages }
    ensures counted { told_size (Some SUPPORTED_PAGES) to.new ≡ 8 }
    ensures rest { StaysFrom 8 to.old to.new }
{
    let end = append(to, 0, &[0x00, SUPPORTED_PAGES, 0x00, 0x04]);
    append(
        to,
        end,
        &[
            SUPPORTED_PAGES,
            UNIT_SERIAL_NUMBER,
            DEVICE_IDENTIFICATION,
            BLOCK_LIMITS,
        ],
    )
}

/// Writes the block limits page, and answers its length.
#[tactic(auto, unfolding(scsi::specs::Inquiry::block_limits))]
pub fn block_limits(to: &mut [u8; 64], limit: u32) -> usize
    ensures size { result ≡ 64 }
    ensures data { take 64 to.new ≡ block_limits limit }
    ensures counted { told_size (Some BLOCK_LIMITS) to.new ≡ 64 }
{
    let mut most = [0; 4];
    BigEndian::write_u32(&mut most, limit);
    let end = append(to, 0, &[0x00, BLOCK_LIMITS, 0x00, 0x3c]);
    let end = append(to, end, &[0; 4]);
    let end = append(to, end, &most);
    append(to, end, &[0; 52])
}
