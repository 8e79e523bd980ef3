//! The form of a command descriptor block: its length, its control byte, its numbers.
ghost use Rattle.std.specs.Prelude.{◌≡◌, ◌<◌, ◌≤◌, ◌+◌, OnOk, length};
ghost use Rattle.scsi.specs.{Judging.judged, Commands.{form_tests, number_at}};

use crate::codes::Sense;
use byteorder::{BigEndian, ByteOrder};

/// Refuses a block with less than `size` bytes, whose control byte, the last of these, is not 0, or
/// whose byte 1 has none of the values allowed.
#[tactic(auto, unfolding(scsi::specs::Commands::form_tests))]
pub(crate) fn check_form(block: &[u8], size: usize, allowed: &[u8]) -> Result<(), Sense>
    requires { 1 < size }
    ensures judged { result ≡ judged (form_tests size allowed.now block.now) tt }
    ensures enough { OnOk result (size ≤ length block.now) }
{
    if block.len() < size || block[size - 1] != 0 || !allowed.contains(&block[1]) {
        return Err(Sense::INVALID_FIELD_IN_CDB);
    }
    Ok(())
}

/// The number in the two bytes from `place` on.
#[tactic(auto, unfolding(scsi::specs::Commands::number_at))]
pub(crate) fn u16_at(block: &[u8], place: usize) -> u16
    requires { place + 2 ≤ length block.now }
    ensures { result ≡ number_at place 2 block.now }
{
    BigEndian::read_u16(&block[place..])
}

/// The number in the four bytes from `place` on.
#[tactic(auto, unfolding(scsi::specs::Commands::number_at))]
pub(crate) fn u32_at(block: &[u8], place: usize) -> u32
    requires { place + 4 ≤ length block.now }
    ensures { result ≡ number_at place 4 block.now }
{
    BigEndian::read_u32(&block[place..])
}

/// The number in the eight bytes from `place` on.
#[tactic(auto, unfolding(scsi::specs::Commands::number_at))]
pub(crate) fn u64_at(block: &[u8], place: usize) -> u64
    requires { place + 8 ≤ length block.now }
    ensures { result ≡ number_at place 8 block.now }
{
    BigEndian::read_u64(&block[place..])
}
