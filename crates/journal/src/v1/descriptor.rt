//! The descriptor: the first sector of a record, which names its blocks.
ghost use Rattle.std.specs.Prelude.{◌≡◌, ◌≤◌, ◌<◌, ◌-◌, ◌^◌, ◌↔◌};
ghost use Rattle.std.specs.Prelude.{ℕ, List, IfSome, IsSomeAnd, IsTrue};
ghost use Rattle.journal.specs.Sectors.{AreBlockNumbers, IsDescriptor};

use crate::fields::{are_rising, list_of, mark_number, number_at, numbers_at, put_all, spell};
use arrayvec::ArrayVec;

/// What the first sector of a slot holds.
#[derive(Drop)]
pub struct Descriptor {
    /// The stamp of the record, 1 to 2^63 - 2.
    pub stamp: u64,
    /// The numbers of the record's 1 to 48 blocks, strictly rising, each below 2^31.
    pub numbers: ArrayVec<u64, 48>,
    pub ghost least: { 1 ≤ stamp },
    pub ghost most: { stamp < 2 ^ 63 - 1 },
    pub ghost block_numbers: { AreBlockNumbers numbers.items },
}

impl Descriptor {
    /// The descriptor of a record with this stamp and these blocks.
    pub fn new(stamp: u64, numbers: &[u64]) -> Descriptor
        requires least { 1 ≤ stamp }
        requires most { stamp < 2 ^ 63 - 1 }
        requires block_numbers { AreBlockNumbers numbers.now }
        ensures stamp { result.stamp ≡ stamp }
        ensures numbers { result.numbers.items ≡ numbers.now }
    {
        Descriptor {
            stamp,
            numbers: list_of(numbers),
        }
    }

    /// The bytes of the descriptor.
    pub fn encode(&self) -> [u8; 512]
        ensures { IsDescriptor self.now.stamp self.now.numbers.items result }
    {
        let mut sector = [0; 512];
        self.write_to(&mut sector);
        sector
    }

    /// Writes the bytes of the descriptor to the sector.
    pub(crate) fn write_to(&self, sector: &mut [u8; 512])
        ensures { IsDescriptor self.now.stamp self.now.numbers.items sector.new }
    {
        let count = self.numbers.len() as u64;
        spell(sector, &[mark_number(b"RDDESCR1"), self.stamp, count]);
        put_all(sector, 3, &self.numbers);
    }

    // Whether these bytes are those of the descriptor.
    fn spells(&self, sector: &[u8; 512]) -> bool
        ensures { IsTrue result ↔ IsDescriptor self.now.stamp self.now.numbers.items sector.now }
    {
        let mut spelled = [0; 512];
        self.write_to(&mut spelled);
        if spelled == *sector { true } else { false }
    }

    /// The descriptor that these bytes spell, if they spell one.
    #[tactic(auto, using(crate::proofs::SectorNumbers::descriptor_says))]
    pub fn decode(sector: &[u8; 512]) -> Option<Descriptor>
        ensures some { IfSome result (λ d. IsDescriptor d.stamp d.numbers.items sector.now) }
        ensures all { (stamp : ℕ) (numbers : List ℕ) → IsDescriptor stamp numbers sector.now
            → IsSomeAnd result (λ d. (d.stamp ≡ stamp) × (d.numbers.items ≡ numbers)) }
    {
        let stamp = number_at(sector, 1);
        let count = number_at(sector, 2);
        if stamp < 1 || stamp >= (1 << 63) - 1 || count < 1 || count > 48 {
            return None;
        }
        let numbers = numbers_at(sector, count as usize);
        if !are_block_numbers(&numbers) {
            return None;
        }
        let descriptor = Descriptor { stamp, numbers };
        if descriptor.spells(sector) {
            Some(descriptor)
        } else {
            None
        }
    }
}

// Whether a record may have these block numbers.
fn are_block_numbers(numbers: &[u64]) -> bool
    ensures { IsTrue result ↔ AreBlockNumbers numbers.now }
{
    !numbers.is_empty()
        && numbers.len() <= 48
        && are_rising(numbers)
        && numbers.iter().all(|b| *b < 1 << 31)
}
