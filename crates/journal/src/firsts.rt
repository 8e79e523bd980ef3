//! The first 8 bytes of blocks, whose place in the log the stamp of their record takes.
ghost use Rattle.std.specs.Prelude.{◌≡◌, ◌≤◌, ◌*◌, ℕ, List, length, IfSome, MatchOption};
ghost use Rattle.journal.specs.Format2.{firsts_of};
ghost use Rattle.journal.specs.Record.{entries_of};

use crate::{LogFormat, v2};
use arrayvec::ArrayVec;

/// The first 8 bytes of each block of a record.
pub type Firsts = ArrayVec<[u8; 8], 240>;

/// Those of these blocks, whose bytes stand one after the other, where a data place does not have
/// them, which is so in format 2.
#[tactic(auto, using(crate::proofs::BatchEntries::all_firsts_of))]
pub fn first_bytes(format: LogFormat, bytes: &[u8]) -> Option<Firsts>
    requires { length bytes.now ≤ 512 * 240 }
    ensures kind { MatchOption result (format ≡ LogFormat.One) (λ _. format ≡ LogFormat.Two) }
    ensures are { (numbers : List ℕ) → length bytes.now ≡ 512 * length numbers
        → IfSome result (λ firsts. firsts.items ≡ firsts_of (entries_of numbers bytes.now)) }
{
    match format {
        LogFormat::One => None,
        LogFormat::Two => Some(v2::firsts_in(bytes, 0, bytes.len() / 512)),
    }
}
