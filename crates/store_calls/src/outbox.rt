//! What a device shows.
ghost use Rattle.store_calls.specs.Calls.{Sees};

use blocks::Store;
use window::WindowMedium;

/// Sectors as the device holds them.
pub(crate) fn show_sectors(store: &mut Store<WindowMedium>, first: u64, bytes: &[u8]) -> bool
    ensures { Sees first bytes.now result store.old store.new }
{
    store.show(first, bytes)
}
