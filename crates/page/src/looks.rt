//! A sector of an image, looked at.
ghost use Rattle.std.specs.Prelude.{◌≡◌, IfSome, IfNone};
ghost use Rattle.journal.specs.Formats.{shape_of};
ghost use Rattle.page.specs.Roles.{AreSizes, HasSizes, sector_code, part_code, part_of};
ghost use Rattle.page.specs.Words.{Says, SaysPart};

use crate::sectors::{
    Part, Role, part_of, role_of, stamp_in, words_of_commit, words_of_descriptor, words_of_head,
    words_of_super,
};
use journal::{LogFormat, Super};

/// The sizes of an image of the page, where they are in their limits.
pub(crate) fn sizes_of(format: u32, slots: u32, blocks: u32) -> Option<Super>
    ensures some { IfSome result (HasSizes format slots blocks) }
    ensures none { IfNone result (AreSizes format slots blocks → ⊥) }
{
    let format = match format {
        1 => LogFormat::One,
        2 => LogFormat::Two,
        _ => return None,
    };
    if slots < 1 || slots > 4 || blocks < 1 || blocks > 32 {
        return None;
    }
    Some(Super::new(format, u64::from(blocks), u64::from(slots)))
}

/// What a sector is, as a number, and what its bytes say.
pub(crate) fn look(sizes: &Super, sector: u64, bytes: &[u8; 512]) -> (u32, [u64; 8])
    ensures code { result.0 ≡ sector_code (shape_of sizes.now) sector }
    ensures says { Says (shape_of sizes.now) sector bytes.now result.1 }
{
    match role_of(sizes, sector) {
        Role::None => (0, [0; 8]),
        Role::Super => (1, words_of_super(bytes)),
        Role::Head => (2, words_of_head(bytes)),
        Role::Log(slot, number) => look_in_slot(sizes.format, slot, number, bytes),
        Role::Home(block) => (6, [0, 0, 1, block, 0, 0, 0, 0]),
    }
}

// The same of a sector of a slot, which stands first in the numbers.
fn look_in_slot(format: LogFormat, slot: u64, number: u64, bytes: &[u8; 512]) -> (u32, [u64; 8])
    ensures code { result.0 ≡ part_code (part_of format number) }
    ensures says { SaysPart format slot (part_of format number) bytes.now result.1 }
{
    match part_of(format, number) {
        Part::Descriptor(j) => (3, words_of_descriptor(format, slot, j, bytes)),
        Part::Data(i) => (4, [slot, i, 1, stamp_in(format, bytes), 0, 0, 0, 0]),
        Part::Commit => (5, words_of_commit(format, slot, bytes)),
    }
}
