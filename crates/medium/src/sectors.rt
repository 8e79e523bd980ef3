//! Sectors in a row of bytes, and lists of writes to them.
ghost use Rattle.std.specs.Prelude.{◌≡◌, ◌+◌, ◌*◌, ◌<◌, ◌≤◌, ◌++◌, ℕ, [], length, vec_capacity};
ghost use Rattle.medium.specs.Medium.{Holds};
ghost use Rattle.medium.specs.Writes.{sector_of, applied, LieWithin, kept_writes, keeps};

use crate::kept::Kept;
use crate::unflushed::UnflushedWrite;

pub(crate) const SECTOR: usize = 512;

/// Copies a sector out.
pub(crate) fn load(bytes: &[u8], sector: u64, to: &mut [u8; 512])
    requires { 512 * (sector + 1) ≤ length bytes.now }
    ensures { to.new ≡ sector_of bytes.now sector }
{
    let at = sector as usize * SECTOR;
    to.copy_from_slice(&bytes[at..at + SECTOR]);
}

/// Copies a block over a sector.
pub(crate) fn store(bytes: &mut [u8], sector: u64, block: &[u8; 512])
    requires { 512 * (sector + 1) ≤ length bytes.old }
    ensures { Holds sector block.now (sector_of bytes.old) (sector_of bytes.new) }
{
    let at = sector as usize * SECTOR;
    bytes[at..at + SECTOR].copy_from_slice(block);
}

/// Copies out what a sector holds after these writes.
pub(crate) fn load_after(bytes: &[u8], writes: &[UnflushedWrite], sector: u64, to: &mut [u8; 512])
    requires { 512 * (sector + 1) ≤ length bytes.now }
    ensures { to.new ≡ applied writes.now (sector_of bytes.now) sector }
{
    load(bytes, sector, to);
    for write in writes {
        if write.sector == sector {
            *to = write.block;
        }
    }
}

/// Applies the writes that are kept, in order.
pub(crate) fn apply(bytes: &mut [u8], writes: &[UnflushedWrite], kept: &Kept)
    requires { LieWithin (length bytes.old) writes.now }
    ensures { (s : ℕ) → sector_of bytes.new s
        ≡ applied (kept_writes (keeps kept.now) 0 writes.now) (sector_of bytes.old) s }
{
    for (i, write) in writes.iter().enumerate() {
        if kept.keeps(i) {
            store(bytes, write.sector, &write.block);
        }
    }
}

/// Applies the writes that are kept, in order, and forgets them all.
pub(crate) fn settle(bytes: &mut Vec<u8>, writes: &mut Vec<UnflushedWrite>, kept: &Kept)
    requires { LieWithin (length bytes.old.items) writes.old.items }
    ensures sectors { (s : ℕ) → sector_of bytes.new.items s
        ≡ applied (kept_writes (keeps kept.now) 0 writes.old.items) (sector_of bytes.old.items) s }
    ensures length { length bytes.new.items ≡ length bytes.old.items }
    ensures none { writes.new.items ≡ [] }
    ensures capacity { vec_capacity writes.new ≡ vec_capacity writes.old }
{
    apply(bytes, writes, kept);
    writes.clear();
}

/// Appends writes to a list that has room for them.
pub(crate) fn append(list: &mut Vec<UnflushedWrite>, writes: &[UnflushedWrite])
    requires { length list.old.items + length writes.now ≤ vec_capacity list.old }
    ensures items { list.new.items ≡ list.old.items ++ writes.now }
    ensures capacity { vec_capacity list.new ≡ vec_capacity list.old }
{
    for write in writes {
        list.push_reserved(*write);
    }
}
