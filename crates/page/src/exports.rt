//! The calls of the page.
ghost use Rattle.std.specs.Prelude.{◌≡◌, ◌≤◌, ◌↔◌, ◌⊎◌};
ghost use Rattle.page.specs.Scripts.{IsScript};
ghost use Rattle.page.specs.Roles.{AreSizes, TellsRole};
ghost use Rattle.page.specs.Words.{TellsWords};
ghost use Rattle.page.specs.Told.{IsPlayed, LacksRoom};

use crate::play::{look_at, play_plain_script, play_script};
use std::alloc::Global;

/// Plays a script on a new disk: 0, and what there is at its end stands at the front of the room as
/// `docs/page` spells it. 1 where the script is none, 2 for want of memory, 3 where the room is too
/// little.
#[unsafe(no_mangle)]
pub extern "C" fn page_play(
    alloc: Global,
    script: &[u8],
    told: &mut [u64; 16],
    to: &mut [u8],
) -> u32
    ensures played { result ≡ 0 → IsPlayed script.now told.new to.old to.new }
    ensures none { (result ≡ 1) ↔ (IsScript script.now → ⊥) }
    ensures room { result ≡ 3 → LacksRoom script.now told.new to.old }
    ensures left { (result ≡ 0) ⊎ ((result ≤ 3) × (to.new ≡ to.old)) }
{
    play_script(alloc, script, told, to)
}

/// Plays a script on a disk without a log, and answers as `page_play` does. This disk is there to
/// compare, and promises nothing: it has no clauses.
#[unsafe(no_mangle)]
pub extern "C" fn page_plain(
    alloc: Global,
    script: &[u8],
    told: &mut [u64; 16],
    to: &mut [u8],
) -> u32 {
    play_plain_script(alloc, script, told, to)
}

/// The sizes of an image, as `docs/page` tells them.
#[repr(C)]
#[derive(Clone, Copy)]
pub struct ImageSizes {
    pub format: u32,
    pub slots: u32,
    pub blocks: u32,
}

/// Tells what a sector of an image of these sizes is, and what these bytes would say in it. 0 where
/// the sizes are none of the page, and the words stay.
#[unsafe(no_mangle)]
pub extern "C" fn page_sector(
    sizes: &ImageSizes,
    sector: u64,
    bytes: &[u8; 512],
    words: &mut [u64; 8],
) -> u32
    ensures role { AreSizes sizes.now.format sizes.now.slots sizes.now.blocks
        → TellsRole sizes.now.format sizes.now.slots sizes.now.blocks sector result }
    ensures words { AreSizes sizes.now.format sizes.now.slots sizes.now.blocks
        → TellsWords sizes.now.format sizes.now.slots sizes.now.blocks sector bytes.now words.new }
    ensures none { (AreSizes sizes.now.format sizes.now.slots sizes.now.blocks → ⊥)
        → (result ≡ 0) × (words.new ≡ words.old) }
{
    match look_at(sizes.format, sizes.slots, sizes.blocks, sector, bytes) {
        Some(seen) => {
            let (role, said) = seen;
            *words = said;
            role
        }
        None => 0,
    }
}
