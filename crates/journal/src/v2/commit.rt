//! The commit of format 2: the last sector of a record.
ghost use Rattle.std.specs.Prelude.{◌≡◌, ◌≤◌, ◌<◌, ◌-◌, ◌^◌, ℕ, IfSome, IsSomeAnd};
ghost use Rattle.journal.specs.Format2.{IsCommitTwo};

use crate::fields::{mark_number, number_at, spell};

/// What the last sector of a slot of format 2 holds.
#[derive(Clone, Copy, Debug, PartialEq, Eq)]
pub struct Commit {
    /// The stamp of the record, 1 to 2^63 - 2.
    pub stamp: u64,
    /// How many blocks the record has, 1 to 240.
    pub count: u64,
    pub ghost least: { 1 ≤ stamp },
    pub ghost most: { stamp < 2 ^ 63 - 1 },
    pub ghost some: { 1 ≤ count },
    pub ghost few: { count ≤ 240 },
}

impl Commit {
    /// The bytes of the commit.
    pub fn encode(&self) -> [u8; 512]
        ensures { IsCommitTwo self.now.stamp self.now.count result }
    {
        let mut sector = [0; 512];
        self.write_to(&mut sector);
        sector
    }

    /// Writes the bytes of the commit to the sector.
    pub(crate) fn write_to(&self, sector: &mut [u8; 512])
        ensures { IsCommitTwo self.now.stamp self.now.count sector.new }
    {
        spell(sector, &[mark_number(b"RDCOMMT2"), self.stamp, self.count]);
    }

    /// The commit that these bytes spell, if they spell one.
    pub fn decode(sector: &[u8; 512]) -> Option<Commit>
        ensures some { IfSome result (λ commit.
            IsCommitTwo commit.stamp commit.count sector.now) }
        ensures all { (stamp count : ℕ) → IsCommitTwo stamp count sector.now
            → IsSomeAnd result (λ commit. (commit.stamp ≡ stamp) × (commit.count ≡ count)) }
    {
        let stamp = number_at(sector, 1);
        let count = number_at(sector, 2);
        if stamp < 1 || stamp >= (1 << 63) - 1 || count < 1 || count > 240 {
            return None;
        }
        let commit = Commit { stamp, count };
        if commit.encode() == *sector {
            Some(commit)
        } else {
            None
        }
    }
}
