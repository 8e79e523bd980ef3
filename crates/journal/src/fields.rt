//! The numbers and the bytes of a sector.
ghost use Rattle.std.specs.Prelude.{◌≡◌, ◌≤◌, ◌<◌, ◌*◌, ◌^◌, ◌+◌, ◌++◌, ◌↔◌};
ghost use Rattle.std.specs.Prelude.{List, ℕ, length, All, slice_index, slice_range, IsTrue};
ghost use Rattle.byteorder.specs.Endian.{little_bytes};
ghost use Rattle.journal.specs.Sectors.{padded, spelling, number_in, mark, AreItems, IsRising};
ghost use Rattle.journal.specs.Sectors.{HasZeroRest};

use arrayvec::ArrayVec;
use byteorder::{ByteOrder, LittleEndian};

/// The number that a mark of eight characters makes.
pub(crate) fn mark_number(text: &[u8; 8]) -> u64
    ensures { result ≡ mark text.now }
{
    LittleEndian::read_u64(text)
}

/// Writes these bytes behind those that are written.
#[tactic(auto, using(crate::proofs::SectorNumbers::padded_put))]
pub(crate) fn append(sector: &mut [u8; 512], at: usize, part: &[u8])
    requires { at + length part.now ≤ 512 }
    ensures { (before : List ℕ) → length before ≡ at → sector.old ≡ padded before
        → sector.new ≡ padded (before ++ part.now) }
{
    sector[at..at + part.len()].copy_from_slice(part);
}

/// Writes the eight bytes of this number behind those that are written.
pub(crate) fn append_number(sector: &mut [u8; 512], at: usize, number: u64)
    requires { at + 8 ≤ 512 }
    ensures { (before : List ℕ) → length before ≡ at → sector.old ≡ padded before
        → sector.new ≡ padded (before ++ little_bytes 8 number) }
{
    let mut eight = [0; 8];
    LittleEndian::write_u64(&mut eight, number);
    append(sector, at, &eight);
}

/// The eight bytes from here on.
pub(crate) fn eight_at(bytes: &[u8], at: usize) -> [u8; 8]
    requires { at + 8 ≤ length bytes.now }
    ensures { result ≡ slice_range bytes.now at (at + 8) }
{
    let mut eight = [0; 8];
    eight.copy_from_slice(&bytes[at..at + 8]);
    eight
}

/// Writes the i-th block of these bytes to the sector.
pub(crate) fn write_block(bytes: &[u8], i: usize, sector: &mut [u8; 512])
    requires { 512 * i + 512 ≤ length bytes.now }
    ensures { sector.new ≡ slice_range bytes.now (512 * i) (512 * i + 512) }
{
    sector.copy_from_slice(&bytes[512 * i..512 * i + 512]);
}

/// Writes these numbers behind the i numbers of a sector.
pub(crate) fn put_all(sector: &mut [u8; 512], i: usize, numbers: &[u64])
    requires { 8 * i + 8 * length numbers.now ≤ 512 }
    ensures { (before : List ℕ) → length before ≡ i → sector.old ≡ spelling before
        → sector.new ≡ spelling (before ++ numbers.now) }
{
    for (k, number) in numbers.iter().enumerate() {
        append_number(sector, 8 * (i + k), *number);
    }
}

/// Writes these numbers to the sector, and zeros behind them.
pub(crate) fn spell(sector: &mut [u8; 512], numbers: &[u64])
    requires { length numbers.now ≤ 64 }
    ensures { sector.new ≡ spelling numbers.now }
{
    *sector = [0; 512];
    put_all(sector, 0, numbers);
}

/// The i-th number of a sector.
#[tactic(auto, unfolding(crate::specs::Sectors::number_in))]
pub(crate) fn number_at(sector: &[u8; 512], i: usize) -> u64
    requires { 8 * i + 8 ≤ 512 }
    ensures is { result ≡ number_in sector.now i }
    ensures spelled { (numbers : List ℕ) → i < length numbers → All (λ n. n < 2 ^ 64) numbers
        → sector.now ≡ spelling numbers → result ≡ slice_index numbers i }
{
    LittleEndian::read_u64(&sector[8 * i..])
}

/// The first `count` numbers of a sector from the fourth on.
pub(crate) fn numbers_at(sector: &[u8; 512], count: usize) -> ArrayVec<u64, 48>
    requires { count ≤ 48 }
    ensures { AreItems count (λ i. number_in sector.now (3 + i)) 0 result.items }
{
    let mut numbers = ArrayVec::new();
    for i in 0..count {
        numbers.push(number_at(sector, 3 + i));
    }
    numbers
}

/// A list of these numbers.
pub(crate) fn list_of<const N: usize>(numbers: &[u64]) -> ArrayVec<u64, N>
    requires { length numbers.now ≤ N }
    ensures { result.items ≡ numbers.now }
{
    let mut list = ArrayVec::new();
    let _ = list.try_extend_from_slice(numbers);
    list
}

/// Whether there are zeros behind the six numbers of a super.
pub(crate) fn has_zero_rest(sector: &[u8; 512]) -> bool
    ensures { IsTrue result ↔ HasZeroRest sector.now }
{
    if sector[48..] == [0; 464] {
        true
    } else {
        false
    }
}

/// Whether each number is below the next.
pub fn are_rising(numbers: &[u64]) -> bool
    ensures { IsTrue result ↔ IsRising numbers.now }
{
    for i in 1..numbers.len() {
        if numbers[i - 1] >= numbers[i] {
            return false;
        }
    }
    true
}
