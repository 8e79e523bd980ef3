//! Whole records.
ghost use Rattle.std.specs.Prelude.{◌≡◌, ◌<◌, ℕ, List, length, All, IfSome, IsSomeAnd, IsTrue, ◌↔◌};
ghost use Rattle.journal.specs.Sectors.{IsDescriptor, IsCommit};

use crate::v1::{Commit, Descriptor};

/// The record whose descriptor and commit these sectors are, if it is whole and has this stamp.
/// Its blocks are below `blocks`.
pub fn whole_record(
    blocks: u64,
    stamp: u64,
    descriptor: &[u8; 512],
    commit: &[u8; 512],
) -> Option<Descriptor>
    ensures stamp { IfSome result (λ d. d.stamp ≡ stamp) }
    ensures some { IfSome result (λ d. IsDescriptor stamp d.numbers.items descriptor.now) }
    ensures ended { IfSome result (λ d. IsCommit stamp (length d.numbers.items) commit.now) }
    ensures inside { IfSome result (λ d. All (λ b. b < blocks) d.numbers.items) }
    ensures all { (numbers : List ℕ) → IsDescriptor stamp numbers descriptor.now
        → IsCommit stamp (length numbers) commit.now → All (λ b. b < blocks) numbers
        → IsSomeAnd result (λ d. d.numbers.items ≡ numbers) }
{
    let found = Descriptor::decode(descriptor)?;
    if found.stamp == stamp
        && is_commit(commit, stamp, found.numbers.len() as u64)
        && are_below(&found.numbers, blocks)
    {
        Some(found)
    } else {
        None
    }
}

/// Whether these bytes are the commit of a record with this stamp and `count` blocks.
pub(crate) fn is_commit(sector: &[u8; 512], stamp: u64, count: u64) -> bool
    ensures { IsTrue result ↔ IsCommit stamp count sector.now }
{
    match Commit::decode(sector) {
        Some(found) if found.stamp == stamp && found.count == count => true,
        _ => false,
    }
}

/// Whether the numbers are all below this one.
pub(crate) fn are_below(numbers: &[u64], end: u64) -> bool
    ensures { IsTrue result ↔ All (λ b. b < end) numbers.now }
{
    numbers.iter().all(|b| *b < end)
}
