//! The head: the stamp of the oldest record that may be needed.
ghost use Rattle.std.specs.Prelude.{◌≡◌, ◌≤◌, ◌<◌, ◌^◌, ℕ, IfSome, IsSomeAnd};
ghost use Rattle.journal.specs.Sectors.{IsHead};

use crate::fields::{mark_number, number_at, spell};

/// What sector 1 holds.
#[derive(Clone, Copy, Debug, PartialEq, Eq)]
pub struct Head {
    /// The stamp of the oldest record that may be needed, 1 to 2^63 - 1.
    pub stamp: u64,
    pub ghost least: { 1 ≤ stamp },
    pub ghost most: { stamp < 2 ^ 63 },
}

impl Head {
    /// The head with this stamp.
    pub fn new(stamp: u64) -> Head
        requires least { 1 ≤ stamp }
        requires most { stamp < 2 ^ 63 }
        ensures { result.stamp ≡ stamp }
    {
        Head { stamp }
    }

    /// The bytes of the head.
    pub fn encode(&self) -> [u8; 512]
        ensures { IsHead self.now.stamp result }
    {
        let mut sector = [0; 512];
        spell(&mut sector, &[mark_number(b"RDHEAD01"), self.stamp]);
        sector
    }

    /// The head that these bytes spell, if they spell one.
    pub fn decode(sector: &[u8; 512]) -> Option<Head>
        ensures some { IfSome result (λ head. IsHead head.stamp sector.now) }
        ensures all { (stamp : ℕ) → IsHead stamp sector.now
            → IsSomeAnd result (λ head. head.stamp ≡ stamp) }
    {
        let stamp = number_at(sector, 1);
        if stamp < 1 || stamp >= 1 << 63 {
            return None;
        }
        let head = Head { stamp };
        if head.encode() == *sector {
            Some(head)
        } else {
            None
        }
    }
}
