//! What the sectors of an image are, and what their bytes say.
ghost use Rattle.std.specs.Prelude.{◌≡◌, slice_index};
ghost use Rattle.page.specs.Roles.{role_of, part_of, descriptors_in};
ghost use Rattle.page.specs.Words.{SaysSuper, SaysHead, SaysDescriptor, SaysCommit};
ghost use Rattle.page.specs.Words.{named, stamp_in};
ghost use Rattle.journal.specs.Formats.{shape_of};

use byteorder::{ByteOrder, LittleEndian};
use journal::{Commit, Commit2, Descriptor, Descriptor2, Head, LogFormat, Super};

/// What a sector of an image is.
#[derive(Clone, Copy)]
pub(crate) enum Role {
    /// It lies behind the image.
    None,
    Super,
    Head,
    /// A sector of a slot of the log, with its number in there.
    Log(u64, u64),
    /// The home of a block.
    Home(u64),
}

/// What this sector is in an image of these sizes.
pub(crate) fn role_of(sizes: &Super, sector: u64) -> Role
    ensures { result ≡ role_of (shape_of sizes.now) sector }
{
    if sector == 0 {
        return Role::Super;
    }
    if sector == 1 {
        return Role::Head;
    }
    if sector < sizes.home {
        let each = sizes.format.slot_sectors();
        return Role::Log((sector - 2) / each, (sector - 2) % each);
    }
    if sector - sizes.home < sizes.blocks {
        return Role::Home(sector - sizes.home);
    }
    Role::None
}

/// What a sector of a slot is.
#[derive(Clone, Copy)]
pub(crate) enum Part {
    Descriptor(u64),
    Data(u64),
    Commit,
}

/// What the sector of a slot with this number in it is.
pub(crate) fn part_of(format: LogFormat, number: u64) -> Part
    ensures { result ≡ part_of format number }
{
    let first = descriptors_in(format);
    if number < first {
        return Part::Descriptor(number);
    }
    if number - first < u64::from(format.limit()) {
        return Part::Data(number - first);
    }
    Part::Commit
}

// How many sectors of a slot are for descriptors.
fn descriptors_in(format: LogFormat) -> u64
    ensures { result ≡ descriptors_in format }
{
    match format {
        LogFormat::One => 1,
        LogFormat::Two => 8,
    }
}

/// The numbers that a super or a head spells: whether it is one, and then what it says.
pub(crate) fn words_of_super(sector: &[u8; 512]) -> [u64; 8]
    ensures { SaysSuper sector.now result }
{
    match Super::decode(sector) {
        Ok(sizes) => [0, 0, 1, sizes.blocks, sizes.slots, sizes.home, 0, 0],
        Err(_) => [0; 8],
    }
}

pub(crate) fn words_of_head(sector: &[u8; 512]) -> [u64; 8]
    ensures { SaysHead sector.now result }
{
    match Head::decode(sector) {
        Some(head) => [0, 0, 1, head.stamp, 0, 0, 0, 0],
        None => [0; 8],
    }
}

/// The numbers of a sector of a slot: the slot and the place in it, and then of a descriptor its
/// stamp, how many blocks it names, and the first three of them.
pub(crate) fn words_of_descriptor(
    format: LogFormat,
    slot: u64,
    place: u64,
    sector: &[u8; 512],
) -> [u64; 8]
    ensures { SaysDescriptor format slot place sector.now result }
{
    match format {
        LogFormat::One => match Descriptor::decode(sector) {
            Some(it) => named(slot, place, it.stamp, it.numbers.len() as u64, &it.numbers),
            None => [slot, place, 0, 0, 0, 0, 0, 0],
        },
        LogFormat::Two => match Descriptor2::decode(sector) {
            Some(it) => named(slot, place, it.stamp, it.count, &it.numbers),
            None => [slot, place, 0, 0, 0, 0, 0, 0],
        },
    }
}

fn named(slot: u64, place: u64, stamp: u64, count: u64, numbers: &[u64]) -> [u64; 8]
    ensures { result ≡ named slot place stamp count numbers.now }
{
    let (first, second, third) = (
        number_at(numbers, 0),
        number_at(numbers, 1),
        number_at(numbers, 2),
    );
    [slot, place, 1, stamp, count, first, second, third]
}

// The number at a place of a list, 0 behind its end.
fn number_at(numbers: &[u64], at: usize) -> u64
    ensures { result ≡ slice_index numbers.now at }
{
    if at < numbers.len() { numbers[at] } else { 0 }
}

/// Of a commit its stamp, and how many blocks its record has.
pub(crate) fn words_of_commit(format: LogFormat, slot: u64, sector: &[u8; 512]) -> [u64; 8]
    ensures { SaysCommit format slot sector.now result }
{
    match format {
        LogFormat::One => match Commit::decode(sector) {
            Some(it) => [slot, 0, 1, it.stamp, it.count, 0, 0, 0],
            None => [slot, 0, 0, 0, 0, 0, 0, 0],
        },
        LogFormat::Two => match Commit2::decode(sector) {
            Some(it) => [slot, 0, 1, it.stamp, it.count, 0, 0, 0],
            None => [slot, 0, 0, 0, 0, 0, 0, 0],
        },
    }
}

/// In format 2, the stamp in the first 8 bytes of a data place.
pub(crate) fn stamp_in(format: LogFormat, sector: &[u8; 512]) -> u64
    ensures { result ≡ stamp_in format sector.now }
{
    match format {
        LogFormat::One => 0,
        LogFormat::Two => LittleEndian::read_u64(sector),
    }
}
