//! A script played whole, and a sector of an image looked at.
ghost use Rattle.std.specs.Prelude.{◌≡◌, ◌<◌, ◌≤◌, ◌+◌, ◌*◌, ◌++◌, ◌↔◌, ◌⊎◌, [], length, drop};
ghost use Rattle.std.specs.Prelude.{IfSome, IsTrue, MatchOption, false};
ghost use Rattle.medium.specs.Sim.{state_of};
ghost use Rattle.journal.specs.Places.{Shape, slot_sectors_of};
ghost use Rattle.recovery.specs.Calls.{IsFormatted};
ghost use Rattle.page.specs.Scripts.{Begins, IsHead, IsReached, IsScript, shape_for};
ghost use Rattle.page.specs.Roles.{AreSizes, TellsRole};
ghost use Rattle.page.specs.Words.{TellsWords};
ghost use Rattle.page.specs.Told.{IsPlayed, LacksRoom};

use crate::life::Life;
use crate::looks::{look, sizes_of};
use crate::picture::{plain_bytes, plain_numbers, show};
use crate::plain::Plain;
use crate::scene::{Played, Scene, start_on};
use crate::script::{Head, code_of, head_of, play_all};
use crate::step::{STEP, Step};
use crate::watched::Watched;
use recovery::make;
use std::alloc::Global;

/// The script is none.
const NO_SCRIPT: u32 = 1;

/// There is no memory.
const NO_MEMORY: u32 = 2;

/// There is too little room for the bytes.
const LITTLE_ROOM: u32 = 3;

/// Plays a script on a new disk: 0, and what there is at its end stands at the front of the room as
/// `docs/page` spells it. 1 where the script is none, 2 for want of memory, 3 where the room is too
/// little.
pub(crate) fn play_script(
    alloc: Global,
    steps: &[u8],
    numbers: &mut [u64; 16],
    room: &mut [u8],
) -> u32
    ensures played { result ≡ 0 → IsPlayed steps.now numbers.new room.old room.new }
    ensures none { (result ≡ 1) ↔ (IsScript steps.now → ⊥) }
    ensures room { result ≡ 3 → LacksRoom steps.now numbers.new room.old }
    ensures left { (result ≡ 0) ⊎ ((result ≤ 3) × (room.new ≡ room.old)) }
{
    let Some(head) = head_of(steps) else {
        return NO_SCRIPT;
    };
    let mut bytes = Vec::new(alloc);
    let Some(scene) = reach(alloc, &head, steps, &mut bytes) else {
        return NO_MEMORY;
    };
    if !show(alloc, scene, &head.sizes, numbers, &mut bytes) {
        return NO_MEMORY;
    }
    if hand_out(&bytes, room) {
        0
    } else {
        LITTLE_ROOM
    }
}

/// Plays a script on a disk without a log, and answers as `play_script` does. This disk is there to
/// compare, and promises nothing: it has no clauses.
pub(crate) fn play_plain_script(
    alloc: Global,
    steps: &[u8],
    numbers: &mut [u64; 16],
    room: &mut [u8],
) -> u32 {
    let Some(head) = head_of(steps) else {
        return NO_SCRIPT;
    };
    let Some(bytes) = play_plain(alloc, &head, steps, numbers) else {
        return NO_MEMORY;
    };
    if hand_out(&bytes, room) {
        0
    } else {
        LITTLE_ROOM
    }
}

/// Tells what a sector of an image of these sizes is, and what these bytes would say in it. `None`
/// where the sizes are none of the page.
pub(crate) fn look_at(
    format: u32,
    slots: u32,
    blocks: u32,
    sector: u64,
    bytes: &[u8; 512],
) -> Option<(u32, [u64; 8])>
    ensures { MatchOption result (AreSizes format slots blocks → ⊥) (λ seen.
        AreSizes format slots blocks × TellsRole format slots blocks sector seen.0
        × TellsWords format slots blocks sector bytes.now seen.1) }
{
    match sizes_of(format, slots, blocks) {
        Some(sizes) => Some(look(&sizes, sector, bytes)),
        None => None,
    }
}

// Plays a script on a disk without a log.
fn play_plain(alloc: Global, head: &Head, script: &[u8], told: &mut [u64; 16]) -> Option<Vec<u8>> {
    let mut bytes = Vec::with_capacity(alloc, 0).ok()?;
    let image = Vec::from_elem(alloc, 0u8, 512 * head.sizes.blocks as usize).ok()?;
    let medium = Watched::new(alloc, image, 1024).ok()?;
    let mut plain = Plain {
        medium,
        runs: true,
        life: Life::new().next(),
    };
    for i in 1..script.len() / STEP {
        let step = Step::decode(&script[STEP * i..STEP * i + STEP]);
        bytes.push(code_of(&plain.play(&step))).ok()?;
    }
    *told = plain_numbers(&plain);
    if plain_bytes(&mut bytes, &mut plain) {
        Some(bytes)
    } else {
        None
    }
}

// Bytes to the front of a room, where they fit.
fn hand_out(bytes: &[u8], to: &mut [u8]) -> bool
    ensures lacks { result ≡ false ↔ (length to.old < length bytes.now) }
    ensures front { IsTrue result → to.new ≡ bytes.now ++ drop (length bytes.now) to.old }
    ensures left { result ≡ false → to.new ≡ to.old }
{
    if to.len() < bytes.len() {
        return false;
    }
    to[..bytes.len()].copy_from_slice(bytes);
    true
}

// Plays a script on a new disk, and appends how its steps went. `None` for want of memory.
fn reach(alloc: Global, head: &Head, script: &[u8], answers: &mut Vec<u8>) -> Option<Scene>
    requires { IsHead script.now head.now }
    ensures { answers.old.items ≡ []
        → IfSome result (IsReached head.now script.now answers.new.items) }
{
    match begin(alloc, head) {
        Some(scene) => play_all(alloc, scene, script, answers),
        None => None,
    }
}

// A new medium, and a disk that has started on it. `None` for want of memory.
fn begin(alloc: Global, head: &Head) -> Option<Scene>
    requires slots { head.now.sizes.slots ≤ 4 }
    requires blocks { head.now.sizes.blocks ≤ 32 }
    requires home { head.now.sizes.home
        ≡ 2 + slot_sectors_of head.now.sizes.format * head.now.sizes.slots }
    ensures { IfSome result (Begins (shape_for head.now.sizes) head.now.goes_ahead) }
{
    let sizes = &head.sizes;
    let sectors = sizes.sectors() as usize;
    let bytes = Vec::from_elem(alloc, 0u8, 512 * sectors).ok()?;
    let mut medium = Watched::new(alloc, bytes, sectors + 128).ok()?;
    match make(&mut medium, sizes.format, sizes.blocks, sizes.slots) {
        Ok(()) => start_first(alloc, medium, head.goes_ahead),
        Err(_) => None,
    }
}

// Starts a disk on a new image.
fn start_first(alloc: Global, medium: Watched, goes_ahead: bool) -> Option<Scene>
    ensures { (shape : Shape) → IsFormatted shape (state_of medium)
        → IfSome result (Begins shape goes_ahead) }
{
    let Played {
        scene,
        result: went,
    } = start_on(alloc, medium, Life::new(), goes_ahead);
    match went {
        Ok(()) => Some(scene),
        Err(_) => None,
    }
}
