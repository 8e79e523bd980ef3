//! How blocks are written.
ghost use Rattle.std.specs.Prelude.{◌/◌, length};
ghost use Rattle.blocks.specs.Prepared.{IsTakenAtOnce};
ghost use Rattle.logical_blocks.specs.Book.{write_of};
ghost use Rattle.store_calls.specs.Calls.{MayMove, IsWritten, CostsWrite};

use crate::reading::foresee;
use blocks::Store;
use window::WindowMedium;

/// Writes blocks that may be written, and that the store takes at once.
pub(crate) fn put_blocks(store: &mut Store<WindowMedium>, address: u64, bytes: &[u8])
    requires may { MayMove store.old.cached address (length bytes.now) }
    requires at_once { IsTakenAtOnce store.old.cached address (length bytes.now / 512) }
    ensures is { IsWritten (write_of address bytes.now) store.old store.new }
    ensures cost { CostsWrite address (length bytes.now / 512) store.old store.new }
{
    foresee(store);
    let _taken = store.write(address, bytes);
}
