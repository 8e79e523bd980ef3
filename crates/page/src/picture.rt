//! A scene as numbers and bytes.
ghost use Rattle.std.specs.Prelude.{◌≡◌, ◌≤◌, ◌*◌, ◌++◌, IsTrue, IfSome, flat_map, length};
ghost use Rattle.medium.specs.Sim.{state_of};
ghost use Rattle.logical_blocks.specs.Book.{Book, array_of, blocks_at};
ghost use Rattle.blocks.specs.StoreValue.{FitsBook, blocks_of};
ghost use Rattle.page.specs.Scenes.{Shows, HoldsAt};
ghost use Rattle.page.specs.Pictures.{numbers_of, served_by, spelled, medium_bytes, picture};

use crate::place::Place;
use crate::plain::Plain;
use crate::scene::Scene;
use crate::watched::{Waiting, Watched};
use blocks::Store;
use journal::Super;
use medium::Medium;
use std::alloc::Global;

/// Tells the numbers of a scene, and appends what it serves, its flushed sectors and its unflushed
/// writes. False for want of memory.
pub(crate) fn show(
    alloc: Global,
    scene: Scene,
    sizes: &Super,
    told: &mut [u64; 16],
    to: &mut Vec<u8>,
) -> bool
    ensures told { told.new ≡ numbers_of scene sizes.now }
    ensures bytes { (book : Book) → Shows scene book → IsTrue result
        → to.new.items ≡ to.old.items ++ picture scene.place book sizes.now.blocks }
{
    *told = numbers(&scene, sizes);
    let mut behind = Vec::new(alloc);
    if !append_medium(&mut behind, scene.place.medium()) {
        return false;
    }
    let Some(blocks) = served(alloc, scene.place, sizes) else {
        return false;
    };
    to.extend_from_slice(&blocks).is_ok() && to.extend_from_slice(&behind).is_ok()
}

// The numbers of a scene.
fn numbers(scene: &Scene, sizes: &Super) -> [u64; 16]
    ensures { result ≡ numbers_of scene.now sizes.now }
{
    let medium = scene.place.medium();
    let life = &scene.life;
    [
        scene.place.code(),
        medium.sectors(),
        sizes.home,
        sizes.blocks,
        medium.waiting().len() as u64,
        life.accepted,
        life.promised,
        0,
        life.accepted_before,
        life.promised_before,
        0,
        life.starts,
        0,
        medium.flushes(),
        0,
        0,
    ]
}

// What a READ of all blocks gives, or zeros where no disk runs. `None` for want of memory.
fn served(alloc: Global, place: Place, sizes: &Super) -> Option<Vec<u8>>
    ensures { (book : Book) → HoldsAt place book
        → IfSome result (λ bytes. bytes.items ≡ served_by place book sizes.now.blocks) }
{
    match place {
        Place::Runs(store) => read_all(alloc, store, sizes),
        _ => Vec::from_elem(alloc, 0, 512 * sizes.blocks as usize).ok(),
    }
}

// What a READ of all blocks gives. `None` for want of memory, and where the store has no such
// blocks.
fn read_all(alloc: Global, store: Store<Watched>, sizes: &Super) -> Option<Vec<u8>>
    ensures { (book : Book) → FitsBook (state_of store.medium) store.cached book
        → IfSome result (λ bytes. bytes.items ≡ blocks_at (array_of book) 0 sizes.now.blocks) }
{
    let mut store = store;
    let blocks = sizes.blocks;
    if blocks > 32 || blocks > store.blocks() {
        return None;
    }
    let Ok(bytes) = Vec::from_elem(alloc, 0, 512 * blocks as usize) else {
        return None;
    };
    let mut bytes = bytes;
    if read_first(&mut store, blocks, &mut bytes) {
        Some(bytes)
    } else {
        None
    }
}

// Reads the first blocks, for which there is room. Whether it could.
fn read_first(store: &mut Store<Watched>, blocks: u64, to: &mut [u8]) -> bool
    requires count { (1 ≤ blocks) × (blocks ≤ 32) }
    requires inside { blocks ≤ blocks_of store.old.cached }
    requires room { length to.old ≡ 512 * blocks }
    ensures { (book : Book) → FitsBook (state_of store.old.medium) store.old.cached book
        → IsTrue result → to.new ≡ blocks_at (array_of book) 0 blocks }
{
    let _ = store.limit();
    match store.read(0, to) {
        Ok(()) => true,
        Err(_) => false,
    }
}

// Appends the flushed sectors of a medium and its unflushed writes. False for want of memory.
fn append_medium(to: &mut Vec<u8>, medium: &Watched) -> bool
    ensures { IsTrue result → to.new.items ≡ to.old.items ++ medium_bytes medium.now }
{
    to.extend_from_slice(medium.durable()).is_ok() && append_waiting(to, medium.waiting())
}

/// Appends the unflushed writes. False for want of memory.
fn append_waiting(to: &mut Vec<u8>, waiting: &[Waiting]) -> bool
    ensures { IsTrue result → to.new.items ≡ to.old.items ++ flat_map spelled waiting.now }
{
    for write in waiting {
        if to.extend_from_slice(&write.sector.to_le_bytes()).is_err() {
            return false;
        }
        if to.extend_from_slice(&write.block).is_err() {
            return false;
        }
    }
    true
}

/// The numbers of a disk without a log: each sector is the home of a block.
pub(crate) fn plain_numbers(plain: &Plain) -> [u64; 16] {
    let life = &plain.life;
    let sectors = plain.medium.sectors();
    [
        plain.code(),
        sectors,
        0,
        sectors,
        plain.medium.waiting().len() as u64,
        life.accepted,
        life.promised,
        0,
        life.accepted_before,
        life.promised_before,
        0,
        life.starts,
        0,
        plain.medium.flushes(),
        0,
        0,
    ]
}

/// Appends what its blocks hold, its flushed sectors and its unflushed writes. False for want of
/// memory.
pub(crate) fn plain_bytes(to: &mut Vec<u8>, plain: &mut Plain) -> bool {
    let mut sector = [0; 512];
    for i in 0..plain.medium.sectors() {
        if !plain.runs || i >= plain.medium.sectors() {
            sector = [0; 512];
        } else if plain.medium.read(i, &mut sector).is_err() {
            sector = [0; 512];
        }
        if to.extend_from_slice(&sector).is_err() {
            return false;
        }
    }
    to.extend_from_slice(plain.medium.durable()).is_ok()
        && append_waiting(to, plain.medium.waiting())
}
