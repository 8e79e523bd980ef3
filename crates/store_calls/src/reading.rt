//! How blocks are read, and which sectors are to be shown before.
ghost use Rattle.std.specs.Prelude.{◌≡◌, ◌<◌, ◌≤◌, ◌+◌, ◌/◌, None, IfSome, OnOk, IfErr, length};
ghost use Rattle.journal.specs.Places.{first_home};
ghost use Rattle.blocks.specs.StoreValue.{layout_of, blocks_of};
ghost use Rattle.window.specs.Sight.{AreInSight, AreMissing};
ghost use Rattle.store_calls.specs.Rooms.{Foresees};
ghost use Rattle.store_calls.specs.Calls.{MayMove, MayNotMove};
ghost use Rattle.store_calls.specs.Calls.{IsRead, IsUnread, home_of};

use crate::store_fault::StoreFault;
use blocks::Store;
use medium::Medium;
use window::{DeviceRead, WindowMedium, device_laws};

/// How many bytes a block has.
pub(crate) const BLOCK: usize = 512;

// Does nothing. The laws of the outbox say of all that may come what it is for the device, and that
// none of it is refused for which there is room.
pub(crate) fn foresee(store: &Store<WindowMedium>)
    ensures { Foresees store.now.medium }
{
    let _waiting = store.medium().waiting();
    device_laws();
}

/// Whether `size` bytes may be moved from or to the blocks from this address on.
pub(crate) fn may_move(
    store: &Store<WindowMedium>,
    address: u64,
    size: usize,
) -> Result<(), StoreFault>
    ensures ok { OnOk result (MayMove store.now.cached address size) }
    ensures err { IfErr result (MayNotMove store.now.cached address size) }
{
    let limit = store.limit() as usize;
    if size == 0 || size % BLOCK != 0 || size > limit * BLOCK {
        return Err(StoreFault::Length);
    }
    let count = (size / BLOCK) as u64;
    if address > store.blocks() || count > store.blocks() - address {
        return Err(StoreFault::Range);
    }
    if store.is_dead() {
        return Err(StoreFault::Dead);
    }
    Ok(())
}

// Those of the home sectors of `count` blocks that are to be shown before these are read.
pub(crate) fn unseen(store: &Store<WindowMedium>, address: u64, count: u32) -> Option<DeviceRead>
    requires some { 0 < count }
    requires few { count ≤ 240 }
    requires inside { address + count ≤ blocks_of store.now.cached }
    ensures some { IfSome result (λ asked. AreMissing store.now.medium
        (home_of store.now address) count asked.first asked.count) }
    ensures none { result ≡ None
        → AreInSight store.now.medium (home_of store.now address) count }
{
    let home = store.home_of(address);
    store.medium().lacking(home, count)
}

// Reads blocks whose home sectors are in sight.
pub(crate) fn read_seen(
    store: &mut Store<WindowMedium>,
    address: u64,
    to: &mut [u8],
) -> Result<(), StoreFault>
    requires may { MayMove store.old.cached address (length to.old) }
    requires seen { AreInSight store.old.medium (home_of store.old address) (length to.old / 512) }
    ensures ok { OnOk result
        (IsRead address (length to.old / 512) store.old to.new store.new) }
    ensures err { IfErr result (λ why. (why ≡ StoreFault.ReadRefused)
        × IsUnread address (length to.old / 512) store.old store.new) }
{
    foresee(store);
    match store.read(address, to) {
        Ok(()) => Ok(()),
        Err(_) => Err(StoreFault::ReadRefused),
    }
}
