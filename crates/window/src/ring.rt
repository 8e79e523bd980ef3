//! A ring of what is to be done, and beside it one of blocks, sector after sector.
ghost use Rattle.std.specs.Prelude.{◌≡◌, ℕ, ◌≤◌, ◌<◌, ◌+◌, ◌*◌, ◌/◌, ◌↔◌, length, IsTrue};
ghost use Rattle.medium.specs.Writes.{sector_of};
ghost use Rattle.window.specs.Ring.{place_of, kind_at, CopiesSectors};
ghost use Rattle.window.specs.declared.outbox.Kind.TheVariants.{Write};

use crate::outbox::Kind;
use crate::sectors::SECTOR;

/// Where the call lies that waits behind `at` others, in a ring whose first lies at `head`.
#[inline]
pub(crate) fn place_of(room: usize, head: usize, at: usize) -> usize
    requires { head ≤ room }
    ensures { result ≡ place_of room head at }
{
    let ahead = room - head;
    if at < ahead { head + at } else { at - ahead }
}

/// How many of the first `most` are writes to neighbouring sectors, from this one on.
pub(crate) fn run_in(kinds: &[Kind], head: usize, most: usize, first: u64) -> usize
    requires starts { head ≤ length kinds.now }
    requires fits { most ≤ length kinds.now }
    ensures most { result ≤ most }
    ensures run { (i : ℕ) → i < result → kind_at kinds.now head i ≡ Write (first + i) }
    ensures ends { result < most → ¬ (kind_at kinds.now head result ≡ Write (first + result)) }
{
    for at in 0..most {
        if !is_write_to(kinds[place_of(kinds.len(), head, at)], first, at as u64) {
            return at;
        }
    }
    most
}

// Whether it is a write to the sector `behind` sectors behind this one.
#[inline]
fn is_write_to(kind: Kind, first: u64, behind: u64) -> bool
    ensures { IsTrue result ↔ (kind ≡ Write (first + behind)) }
{
    match kind {
        Kind::Write(sector) => sector >= first && sector - first == behind,
        Kind::Flush => false,
    }
}

/// Copies the first blocks to the front of the room: by one copy, or by two where the ring ends
/// within them.
pub(crate) fn copy_first(blocks: &[u8], head: usize, count: usize, to: &mut [u8])
    requires starts { 512 * head ≤ length blocks.now }
    requires fits { 512 * count ≤ length blocks.now }
    requires room { 512 * count ≤ length to.old }
    ensures first { (i : ℕ) → i < count → sector_of to.new i
        ≡ sector_of blocks.now (place_of (length blocks.now / 512) head i) }
    ensures behind { (i : ℕ) → count ≤ i → sector_of to.new i ≡ sector_of to.old i }
{
    let ahead = (blocks.len() / SECTOR - head).min(count);
    copy_sectors(blocks, head, ahead, to, 0);
    copy_sectors(blocks, 0, count - ahead, to, ahead);
}

// Copies so many sectors from this one on to those from another one on.
#[inline]
fn copy_sectors(from: &[u8], first: usize, count: usize, to: &mut [u8], at: usize)
    requires there { 512 * (first + count) ≤ length from.now }
    requires room { 512 * (at + count) ≤ length to.old }
    ensures { CopiesSectors from.now first count to.old at to.new }
{
    let (start, place, size) = (first * SECTOR, at * SECTOR, count * SECTOR);
    to[place..place + size].copy_from_slice(&from[start..start + size]);
}
