//! What the sectors of a record of format 2 name, taken one by one.
ghost use Rattle.std.specs.Prelude.{◌<◌, ℕ, List, All, IsTrue, MatchOption, ◌↔◌};
ghost use Rattle.journal.specs.Sectors.{IsRising};
ghost use Rattle.journal.specs.Format2.{IsDescriptorTwo, IsCommitTwo};

use crate::are_rising;
use crate::v2::{Commit, Descriptor};

/// How many blocks the record of a stamp has, if this is its commit.
pub(crate) fn count_of(sector: &[u8; 512], stamp: u64) -> Option<u64>
    ensures { MatchOption result ((n : ℕ) → ¬ IsCommitTwo stamp n sector.now)
        (λ n. IsCommitTwo stamp n sector.now) }
{
    match Commit::decode(sector) {
        Some(found) if found.stamp == stamp => Some(found.count),
        _ => None,
    }
}

/// Descriptor j of the record of a stamp with `count` blocks, if these bytes are that.
pub(crate) fn descriptor_of(
    sector: &[u8; 512],
    stamp: u64,
    count: u64,
    j: u64,
) -> Option<Descriptor>
    ensures { MatchOption result
        ((numbers : List ℕ) (firsts : List (List ℕ))
        → ¬ IsDescriptorTwo stamp count j numbers firsts sector.now)
        (λ d. IsDescriptorTwo stamp count j d.numbers.items d.firsts.items sector.now) }
{
    let found = Descriptor::decode(sector)?;
    if found.stamp == stamp && found.count == count && found.index == j {
        Some(found)
    } else {
        None
    }
}

/// Whether these block numbers rise, and each is below the number of blocks.
pub(crate) fn are_blocks(numbers: &[u64], blocks: u64) -> bool
    ensures { IsTrue result ↔ IsRising numbers.now × All (λ b. b < blocks) numbers.now }
{
    are_rising(numbers) && numbers.iter().all(|b| *b < blocks)
}
