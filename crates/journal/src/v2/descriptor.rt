//! The descriptors of format 2: the first sectors of a record, which name its blocks.
ghost use Rattle.std.specs.Prelude.{◌≡◌, ◌≤◌, ◌<◌, ◌-◌, ◌^◌, ◌+◌, ◌*◌, ◌++◌, ◌↔◌};
ghost use Rattle.std.specs.Prelude.{ℕ, List, length, take, drop, All, slice_index, get_or};
ghost use Rattle.std.specs.Prelude.{slice_range, [], zip, min, IsTrue, IfSome, IsSomeAnd};
ghost use Rattle.std.specs.List.{flat_map};
ghost use Rattle.journal.specs.Sectors.{IsRising, padded, number_in, AreItems};
ghost use Rattle.journal.specs.Format2.{AreEntriesTwo, IsDescriptorTwo, descriptors_of};
ghost use Rattle.journal.specs.Format2.{entries_here, entry_bytes};
ghost use Rattle.journal.specs.Record.{CanWrite, Describes};

use crate::fields::{
    append, append_number, are_rising, eight_at, list_of, mark_number, number_at, spell,
};
use crate::v2::places::ENTRIES;
use arrayvec::ArrayVec;

/// What one of the first sectors of a slot of format 2 holds.
#[derive(Drop)]
pub struct Descriptor {
    /// The stamp of the record, 1 to 2^63 - 2.
    pub stamp: u64,
    /// How many blocks the record has, 1 to 240.
    pub count: u64,
    /// Which of the record's descriptors it is: its entries begin with that of block 30 j.
    pub index: u64,
    /// The numbers of up to 30 blocks, strictly rising, each below 2^31.
    pub numbers: ArrayVec<u64, 30>,
    /// The first 8 bytes of each of them.
    pub firsts: ArrayVec<[u8; 8], 30>,
    pub ghost least: { 1 ≤ stamp },
    pub ghost most: { stamp < 2 ^ 63 - 1 },
    pub ghost entries: { AreEntriesTwo count index numbers.items firsts.items },
}

impl Descriptor {
    /// Descriptor `index` of the record with this stamp and these blocks, whose bytes stand one
    /// after the other.
    #[tactic(auto, using(crate::proofs::SlotTwo::items_here))]
    pub fn new(stamp: u64, numbers: &[u64], bytes: &[u8], index: usize) -> Descriptor
        requires { CanWrite descriptors_of 240 stamp numbers.now bytes.now index }
        ensures { Describes stamp numbers.now bytes.now index result.stamp result.count
            result.index result.numbers.items result.firsts.items }
    {
        let from = ENTRIES * index;
        let here = count_here(numbers.len(), from);
        Descriptor {
            stamp,
            count: numbers.len() as u64,
            index: index as u64,
            numbers: list_of(&numbers[from..from + here]),
            firsts: firsts_in(bytes, from, here),
        }
    }

    /// The bytes of the descriptor.
    pub fn encode(&self) -> [u8; 512]
        ensures { IsDescriptorTwo self.now.stamp self.now.count self.now.index
            self.now.numbers.items self.now.firsts.items result }
    {
        let mut sector = [0; 512];
        self.write_to(&mut sector);
        sector
    }

    /// Writes the bytes of the descriptor to the sector.
    pub(crate) fn write_to(&self, sector: &mut [u8; 512])
        ensures { IsDescriptorTwo self.now.stamp self.now.count self.now.index
            self.now.numbers.items self.now.firsts.items sector.new }
    {
        let mark = mark_number(b"RDDESCR2");
        spell(sector, &[mark, self.stamp, self.count, self.index]);
        append_entries(sector, &self.numbers, &self.firsts);
    }

    // Whether these bytes are those of the descriptor.
    fn spells(&self, sector: &[u8; 512]) -> bool
        ensures { IsTrue result ↔ IsDescriptorTwo self.now.stamp self.now.count self.now.index
            self.now.numbers.items self.now.firsts.items sector.now }
    {
        let mut spelled = [0; 512];
        self.write_to(&mut spelled);
        if spelled == *sector { true } else { false }
    }

    /// The descriptor that these bytes spell, if they spell one.
    #[tactic(auto, using(crate::proofs::SlotTwo::header_says))]
    pub fn decode(sector: &[u8; 512]) -> Option<Descriptor>
        ensures some { IfSome result (λ d. IsDescriptorTwo d.stamp d.count d.index
            d.numbers.items d.firsts.items sector.now) }
        ensures all { (stamp count j : ℕ) (numbers : List ℕ) (firsts : List (List ℕ))
            → IsDescriptorTwo stamp count j numbers firsts sector.now
            → IsSomeAnd result (λ d. (d.stamp ≡ stamp) × (d.count ≡ count) × (d.index ≡ j)
            × (d.numbers.items ≡ numbers) × (d.firsts.items ≡ firsts)) }
    {
        let stamp = number_at(sector, 1);
        let count = number_at(sector, 2);
        let index = number_at(sector, 3);
        if stamp < 1 || stamp >= (1 << 63) - 1 || !has_entries(count, index) {
            return None;
        }
        let here = count_here(count as usize, ENTRIES * index as usize);
        let numbers = numbers_at(sector, here);
        if !are_small(&numbers) || !are_rising(&numbers) {
            return None;
        }
        let firsts = firsts_at(sector, &numbers);
        let descriptor = Descriptor {
            stamp,
            count,
            index,
            numbers,
            firsts,
        };
        if descriptor.spells(sector) {
            Some(descriptor)
        } else {
            None
        }
    }
}

// Whether a record of `count` blocks may be, and has a descriptor of this index.
fn has_entries(count: u64, index: u64) -> bool
    ensures { IsTrue result ↔ (count ≤ 240) × (30 * index < count) }
{
    count <= 240 && index < 8 && ENTRIES as u64 * index < count
}

// How many entries the descriptor has whose first is this one.
fn count_here(count: usize, from: usize) -> usize
    requires { from < count }
    ensures { result ≡ min 30 (count - from) }
{
    if count - from < ENTRIES {
        count - from
    } else {
        ENTRIES
    }
}

// Whether the numbers are all below 2^31.
fn are_small(numbers: &[u64]) -> bool
    ensures { IsTrue result ↔ All (λ b. b < 2 ^ 31) numbers.now }
{
    numbers.iter().all(|b| *b < 1 << 31)
}

/// The first 8 bytes of `count` blocks from this one on.
pub(crate) fn firsts_in<const N: usize>(
    bytes: &[u8],
    from: usize,
    count: usize,
) -> ArrayVec<[u8; 8], N>
    requires few { count ≤ N }
    requires inside { 512 * (from + count) ≤ length bytes.now }
    ensures { AreItems count (λ i. slice_range bytes.now
        (512 * (from + i)) (512 * (from + i) + 8)) [] result.items }
{
    let mut firsts = ArrayVec::new();
    for i in 0..count {
        firsts.push(eight_at(bytes, 512 * (from + i)));
    }
    firsts
}

// Writes these entries behind the 32 bytes of a header.
fn append_entries(sector: &mut [u8; 512], numbers: &[u64], firsts: &[[u8; 8]])
    requires few { length numbers.now ≤ 30 }
    requires each { length firsts.now ≡ length numbers.now }
    requires sized { All (λ first. length first ≡ 8) firsts.now }
    ensures { (before : List ℕ) → length before ≡ 32 → sector.old ≡ padded before
        → sector.new ≡ padded (before ++ flat_map entry_bytes (zip numbers.now firsts.now)) }
{
    for e in 0..numbers.len() {
        append_number(sector, 32 + 16 * e, numbers[e]);
        append(sector, 40 + 16 * e, &firsts[e]);
    }
}

// The numbers of `count` entries.
fn numbers_at(sector: &[u8; 512], count: usize) -> ArrayVec<u64, 30>
    requires { count ≤ 30 }
    ensures { AreItems count (λ i. number_in sector.now (4 + 2 * i)) 0 result.items }
{
    let mut numbers = ArrayVec::new();
    for i in 0..count {
        numbers.push(number_at(sector, 4 + 2 * i));
    }
    numbers
}

// The first bytes of the entries with these numbers.
fn firsts_at(sector: &[u8; 512], numbers: &ArrayVec<u64, 30>) -> ArrayVec<[u8; 8], 30>
    ensures { AreItems (length numbers.now.items)
        (λ i. slice_range sector.now (40 + 16 * i) (40 + 16 * i + 8)) [] result.items }
{
    let mut firsts = ArrayVec::new();
    for i in 0..numbers.len() {
        firsts.push(eight_at(sector, 40 + 16 * i));
    }
    firsts
}
