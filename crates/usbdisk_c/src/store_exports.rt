//! The exports of a store without a transport, for a stack that has one with SCSI in it.
ghost use Rattle.std.specs.Prelude.{◌≡◌};
ghost use Rattle.calls.specs.Handles.{InHandle};
ghost use Rattle.calls.specs.Starting.{StartsStore};
ghost use Rattle.calls.specs.Storing.{TellsSizes, ReadsBlocks, WritesBlocks, SyncsStore};

use calls::{UsbDisk, UsbDiskOptions};
use std::alloc::Global;

#[unsafe(no_mangle)]
pub extern "C" fn usbdisk_store_start(
    alloc: Global,
    store: &mut UsbDisk,
    options: &UsbDiskOptions,
) -> u32
    ensures { StartsStore options.now store.old.held store.new.held result }
{
    calls::start_store(alloc, store, options)
}

#[unsafe(no_mangle)]
pub extern "C" fn usbdisk_store_sizes(store: &mut UsbDisk, blocks: &mut u64, limit: &mut u32) -> u32
    ensures { InHandle (TellsSizes blocks.old limit.old blocks.new limit.new)
        ((blocks.new ≡ blocks.old) × (limit.new ≡ limit.old))
        store.old.held store.new.held result }
{
    calls::tell_sizes(store, blocks, limit)
}

#[unsafe(no_mangle)]
pub extern "C" fn usbdisk_store_read(store: &mut UsbDisk, block: u64, to: &mut [u8]) -> u32
    ensures { InHandle (ReadsBlocks block to.old to.new) (to.new ≡ to.old)
        store.old.held store.new.held result }
{
    calls::read_blocks(store, block, to)
}

#[unsafe(no_mangle)]
pub extern "C" fn usbdisk_store_write(store: &mut UsbDisk, block: u64, bytes: &[u8]) -> u32
    ensures { InHandle (WritesBlocks block bytes.now) (Unit {0})
        store.old.held store.new.held result }
{
    calls::write_blocks(store, block, bytes)
}

#[unsafe(no_mangle)]
pub extern "C" fn usbdisk_store_sync(store: &mut UsbDisk) -> u32
    ensures { InHandle SyncsStore (Unit {0}) store.old.held store.new.held result }
{
    calls::sync(store)
}
