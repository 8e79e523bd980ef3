//! What a store reads, writes and makes durable.
ghost use Rattle.std.specs.Prelude.{◌≡◌};
ghost use Rattle.calls.specs.Handles.{InHandle};
ghost use Rattle.calls.specs.Storing.{TellsSizes, ReadsBlocks, WritesBlocks, SyncsStore};
ghost use Rattle.calls.specs.Storing.{code_before, code_of_store_fault, code_of_stored};

use crate::codes::{BUSY, OTHER_KIND};
use crate::handle::UsbDisk;
use crate::held::{Held, Service};
use crate::lending::held_in;
use disk_machine::{ACK, BAD_LENGTH, BAD_RANGE, DEAD, EMPTY, UNREAD, number_of};
use store_calls::StoreFault;

/// How many blocks there are, and how many of them a read or a write has at most.
pub fn tell_sizes(h: &mut UsbDisk, blocks: &mut u64, limit: &mut u32) -> u32
    ensures { InHandle (TellsSizes blocks.old limit.old blocks.new limit.new)
        ((blocks.new ≡ blocks.old) × (limit.new ≡ limit.old)) h.old.held h.new.held result }
{
    let Some(held) = held_in(h) else {
        return EMPTY;
    };
    held.sizes(blocks, limit)
}

/// Reads whole blocks, as they are after all accepted writes.
pub fn read_blocks(h: &mut UsbDisk, block: u64, to: &mut [u8]) -> u32
    ensures { InHandle (ReadsBlocks block to.old to.new) (to.new ≡ to.old)
        h.old.held h.new.held result }
{
    let Some(held) = held_in(h) else {
        return EMPTY;
    };
    held.read(block, to)
}

/// Writes whole blocks, as one write.
pub fn write_blocks(h: &mut UsbDisk, block: u64, bytes: &[u8]) -> u32
    ensures { InHandle (WritesBlocks block bytes.now) (Unit {0}) h.old.held h.new.held result }
{
    let Some(held) = held_in(h) else {
        return EMPTY;
    };
    held.write(block, bytes)
}

/// Makes every accepted write durable.
pub fn sync(h: &mut UsbDisk) -> u32
    ensures { InHandle SyncsStore (Unit {0}) h.old.held h.new.held result }
{
    let Some(held) = held_in(h) else {
        return EMPTY;
    };
    held.sync()
}

impl Held {
    fn sizes(&self, blocks: &mut u64, limit: &mut u32) -> u32
        ensures { TellsSizes blocks.old limit.old blocks.new limit.new self.now self.now result }
    {
        match self {
            Held::Store(store) => {
                let sizes = store.sizes();
                *blocks = sizes.blocks;
                *limit = sizes.limit;
                ACK
            }
            Held::Recovering(_, _, what) => what.code_before(BUSY),
            Held::Failed(what, why) => what.code_before(number_of(*why)),
            Held::Opening(_, _) | Held::Disk(_) | Held::Image(_) | Held::NoWork(_) => OTHER_KIND,
        }
    }

    fn read(&mut self, block: u64, to: &mut [u8]) -> u32
        ensures { ReadsBlocks block to.old to.new self.old self.new result }
    {
        match self {
            Held::Store(store) => code_of(store.read(block, to)),
            Held::Recovering(_, _, what) => what.code_before(BUSY),
            Held::Failed(what, why) => what.code_before(number_of(*why)),
            Held::Opening(_, _) | Held::Disk(_) | Held::Image(_) | Held::NoWork(_) => OTHER_KIND,
        }
    }

    fn write(&mut self, block: u64, bytes: &[u8]) -> u32
        ensures { WritesBlocks block bytes.now self.old self.new result }
    {
        match self {
            Held::Store(store) => code_of(store.write(block, bytes)),
            Held::Recovering(_, _, what) => what.code_before(BUSY),
            Held::Failed(what, why) => what.code_before(number_of(*why)),
            Held::Opening(_, _) | Held::Disk(_) | Held::Image(_) | Held::NoWork(_) => OTHER_KIND,
        }
    }

    fn sync(&mut self) -> u32
        ensures { SyncsStore self.old self.new result }
    {
        match self {
            Held::Store(store) => code_of(store.sync()),
            Held::Recovering(_, _, what) => what.code_before(BUSY),
            Held::Failed(what, why) => what.code_before(number_of(*why)),
            Held::Opening(_, _) | Held::Disk(_) | Held::Image(_) | Held::NoWork(_) => OTHER_KIND,
        }
    }
}

impl Service {
    // What a store is told that is not there, by this number; of another kind OTHER_KIND.
    fn code_before(&self, code: u32) -> u32
        ensures { result ≡ code_before code self.now }
    {
        match self {
            Service::Store(_) => code,
            Service::Disk(_) => OTHER_KIND,
        }
    }
}

// The number of what a call of a store answers.
fn code_of(done: Result<(), StoreFault>) -> u32
    ensures { result ≡ code_of_stored done }
{
    match done {
        Ok(()) => ACK,
        Err(why) => code_of_store_fault(why),
    }
}

fn code_of_store_fault(why: StoreFault) -> u32
    ensures { result ≡ code_of_store_fault why }
{
    match why {
        StoreFault::Busy => BUSY,
        StoreFault::ReadRefused => UNREAD,
        StoreFault::Dead => DEAD,
        StoreFault::Length => BAD_LENGTH,
        StoreFault::Range => BAD_RANGE,
    }
}
