//! Searches among the numbers of a batch, and the steps that they take.
ghost use Rattle.std.specs.Prelude.{◌≡◌, ◌+◌, ◌≤◌, [], length};

use crate::batch::Batch;
use crate::counter::Steps;

/// A search among 48 blocks takes at most 6 steps.
///
/// # Errors
///
/// The place where the block would stand, where the batch does not have it.
pub fn search_among_48(batch: &Batch, block: u64, steps: &mut Steps) -> Result<usize, usize>
    requires { length batch.now.numbers ≡ 48 }
    ensures { steps.new.count ≤ steps.old.count + 6 }
{
    batch.search(block, steps)
}

/// A search among no blocks takes no step.
///
/// # Errors
///
/// The place where the block would stand, which is 0.
pub fn search_among_none(batch: &Batch, number: u64, steps: &mut Steps) -> Result<usize, usize>
    requires { batch.now.numbers ≡ [] }
    ensures { steps.new.count ≡ steps.old.count }
{
    batch.search(number, steps)
}
