//! The memory of a log, which is taken where it is made.
ghost use Rattle.std.specs.Prelude.{◌≡◌, ◌≤◌, ◌*◌, [], IsOk, IfOk, vec_capacity, if◌then◌else◌};
ghost use Rattle.std.specs.VecDeque.{deque_capacity};
ghost use Rattle.journal.specs.Places.{limit_of};
ghost use Rattle.redo_log.specs.Shown.{HoldsRecords, HasFirstsRoom};

use crate::copies::Copies;
use crate::index::Copied;
use crate::log::Numbers;
use journal::{Firsts, LogFormat};
use std::alloc::{AllocError, Global};
use std::collections::VecDeque;

/// Room for so many records.
#[derive(Drop)]
pub(crate) struct Room {
    pub(crate) waiting: VecDeque<Numbers>,
    pub(crate) firsts: VecDeque<Firsts>,
    pub(crate) copies: Copies,
    pub(crate) index: Vec<Copied>,
}

/// Memory for the block numbers of `count` records, for their index, in format 2 for the first
/// bytes of their blocks and, where they are kept, for all of their bytes.
pub(crate) fn room_for(
    alloc: Global,
    format: LogFormat,
    count: usize,
    keeps: bool,
) -> Result<Room, AllocError>
    requires { count ≤ 64 }
    ensures { IfOk result (HoldsRecords format count keeps) }
{
    let limit = format.limit() as usize;
    Ok(Room {
        waiting: VecDeque::with_capacity(alloc, count)?,
        firsts: firsts_for(alloc, format, count)?,
        copies: Copies::new(alloc, keeps, count, 512 * limit)?,
        index: Vec::with_capacity(alloc, limit * count)?,
    })
}

// Room for the first bytes of the blocks of so many records, in format 2. In format 1 no memory is
// asked for.
fn firsts_for(
    alloc: Global,
    format: LogFormat,
    count: usize,
) -> Result<VecDeque<Firsts>, AllocError>
    ensures free { format ≡ LogFormat.One → IsOk result }
    ensures none { IfOk result (λ firsts. firsts.items ≡ []) }
    ensures room { IfOk result (λ firsts. HasFirstsRoom format count (deque_capacity firsts)) }
{
    let slots = if format.lacks_firsts() { count } else { 0 };
    VecDeque::with_capacity(alloc, slots)
}
