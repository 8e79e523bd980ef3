//! How many sectors lie before the blocks.
ghost use Rattle.std.specs.Prelude.{◌≤◌, length};
ghost use Rattle.medium.specs.Writes.{sector_of};
ghost use Rattle.image_calls.specs.Near.{IsNear};

use store_calls::super_of;

/// How many sectors lie before the first home sector of a device that begins with these: 2 where
/// the first is no super.
pub(crate) fn near_in(bytes: &[u8]) -> u64
    requires { 512 ≤ length bytes.now }
    ensures is { IsNear (sector_of bytes.now 0) result }
    ensures few { result ≤ 16384 }
{
    match super_of(bytes) {
        Some(sizes) => sizes.home,
        None => 2,
    }
}
