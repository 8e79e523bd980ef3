//! What the sectors of a record of format 1 name, taken one by one.
ghost use Rattle.std.specs.Prelude.{◌<◌, ◌≤◌, ◌↔◌, IsTrue, All, length};
ghost use Rattle.journal.specs.Naming.{IsDescribed};
ghost use Rattle.journal.specs.Sectors.{IsCommit, IsRising};

use crate::Record;
use crate::v1::Descriptor;
use crate::v1::whole::{are_below, is_commit};

/// Notes the blocks that these bytes name, if they are the descriptor of the record of a stamp.
pub(crate) fn describe(sector: &[u8; 512], stamp: u64, to: &mut Record)
    ensures described { IsDescribed stamp to.new sector.now }
    ensures rising { IsRising to.new.numbers.items }
    ensures few { length to.new.numbers.items ≤ 48 }
{
    to.clear();
    match Descriptor::decode(sector) {
        Some(found) if found.stamp == stamp => to.append(&found.numbers, &[]),
        _ => {}
    }
}

/// Whether these bytes are the commit of the record of a stamp that has these blocks, each of them
/// below `blocks`.
pub(crate) fn is_ended(sector: &[u8; 512], stamp: u64, numbers: &[u64], blocks: u64) -> bool
    ensures { IsTrue result ↔ IsCommit stamp (length numbers.now) sector.now
        × All (λ b. b < blocks) numbers.now }
{
    is_commit(sector, stamp, numbers.len() as u64) && are_below(numbers, blocks)
}
