//! How much room a migration needs.
ghost use Rattle.std.specs.Prelude.{◌≡◌, ◌≤◌, length};
ghost use Rattle.recovery.specs.Recovered.{most_migration_sends};
ghost use Rattle.image_calls.specs.Plans.{IsRoomToMigrate};

use journal::Super;
use store_calls::super_of;

/// How many calls wait at most while the image is migrated that these first sectors begin.
pub(crate) fn room_to_migrate(near: &[u8]) -> usize
    ensures { 512 ≤ length near.now → IsRoomToMigrate near.now result }
{
    match super_of(near) {
        Some(sizes) => sends_to_migrate(&sizes) as usize,
        None => 1,
    }
}

// How many writes and flushes a migration makes at most of an image of these sizes.
fn sends_to_migrate(sizes: &Super) -> u64
    ensures { result ≡ most_migration_sends sizes.now.format sizes.now.slots }
{
    let start = u64::from(sizes.format.limit()) * sizes.slots + 4;
    if sizes.format.migrates() {
        start + sizes.format.slot_sectors() * sizes.slots + 5
    } else {
        start
    }
}
