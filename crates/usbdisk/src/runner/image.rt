//! Image files, as media.
ghost use Rattle.std.specs.Prelude.{◌≡◌, ◌⊎◌, ◌↔◌, ℕ, List, IfOk, IfErr, IfSome, IfNone};
ghost use Rattle.std.specs.Prelude.{MatchResult};
ghost use Rattle.journal.specs.Places.{new_shape, sectors_of};
ghost use Rattle.medium.specs.ImageFile.{IsImage};
ghost use Rattle.recovery.specs.Calls.{AreSizes, IsFormatted};
ghost use Rattle.usbdisk.specs.runner.Program.{AreImageSizes, IsJustOpened, IsMade, simulated};

use crate::console::{Refusal, StreamGuard, guard_streams};
use crate::runner::read::{ReadFault, read_to_limit};
use journal::LogFormat;
use medium::{FileMedium, Medium, SimError, SimMedium};
use recovery::FormatFault;
use std::fs;
use std::fs::{File, Files};

/// The most bytes of an image: 65,536 sectors.
const IMAGE_LIMIT: usize = 65_536 * 512;

/// The unflushed writes that a simulated medium holds.
const ROOM: usize = 16_384;

/// The sizes of a new image: its format, its blocks, and the slots of its log.
#[derive(Clone, Copy)]
pub(crate) struct ImageSizes {
    pub(crate) format: LogFormat,
    pub(crate) blocks: u64,
    pub(crate) slots: u64,
}

/// Makes an image file of these sizes, whose blocks are zeros, in place of one that is there. The
/// sizes are tested before the file is touched.
pub(crate) fn make_image<R: Files<File = File> + AllocGlobal>(
    rt: &R,
    path: &str,
    sizes: ImageSizes,
) -> Result<FileMedium<File>, Refusal>
    ensures made { IfOk result (IsMade path.now sizes.format sizes.blocks sizes.slots) }
    ensures size { (result ≡ Err Refusal.ImageSize)
        ↔ ¬ AreImageSizes sizes.format sizes.blocks sizes.slots }
    ensures refused { IfErr result (λ refusal. (refusal ≡ Refusal.ImageSize)
        ⊎ ((refusal ≡ Refusal.FileFailed) ⊎ (refusal ≡ Refusal.NoMemory))) }
{
    let sectors = image_sectors(sizes).ok_or(Refusal::ImageSize)?;
    let _streams = hold(rt)?;
    let mut medium = FileMedium::create(rt, path, sectors)?;
    format_medium(&mut medium, sizes)?;
    Ok(medium)
}

/// Holds the standard streams that were closed at the start.
pub(crate) fn hold<R: Files>(rt: &R) -> Result<StreamGuard<R::File>, Refusal>
    ensures { IfErr result (λ refusal. refusal ≡ Refusal.FileFailed) }
{
    guard_streams(rt).ok_or(Refusal::FileFailed)
}

// Formats a medium of zeros, which has room for these sizes.
fn format_medium<M: Medium>(medium: &mut M, sizes: ImageSizes) -> Result<(), Refusal>
    requires { AreSizes (M.state medium.old).size
        (new_shape sizes.format sizes.blocks sizes.slots) }
    ensures { MatchResult result (λ _. IsFormatted
        (new_shape sizes.format sizes.blocks sizes.slots) (M.state medium.new)
        × M.follows medium.old medium.new) (λ refusal. refusal ≡ Refusal.FileFailed) }
{
    match recovery::make(medium, sizes.format, sizes.blocks, sizes.slots) {
        Ok(()) => Ok(()),
        Err(FormatFault::BadSize) => Err(Refusal::ImageSize),
        Err(FormatFault::Medium) => Err(Refusal::FileFailed),
    }
}

// The sectors of an image of these sizes, if it may have them.
fn image_sectors(sizes: ImageSizes) -> Option<u64>
    ensures some { IfSome result (λ sectors. AreImageSizes sizes.format sizes.blocks sizes.slots
        × (sectors ≡ sectors_of (new_shape sizes.format sizes.blocks sizes.slots))) }
    ensures none { IfNone result (AreImageSizes sizes.format sizes.blocks sizes.slots → ⊥) }
{
    if sizes.blocks < 1 || sizes.blocks > 65_536 || sizes.slots < 1 || sizes.slots > 64 {
        return None;
    }
    let sectors = 2 + sizes.format.slot_sectors() * sizes.slots + sizes.blocks;
    if sectors > 65_536 {
        return None;
    }
    Some(sectors)
}

/// The medium of an image file.
pub(crate) fn open_image<R: Files<File = File> + AllocGlobal>(
    rt: &R,
    path: &str,
) -> Result<FileMedium<File>, Refusal>
    ensures opened { IfOk result (IsJustOpened path.now) }
    ensures refused { IfErr result (λ refusal. (refusal ≡ Refusal.ImageLength)
        ⊎ ((refusal ≡ Refusal.FileFailed) ⊎ (refusal ≡ Refusal.NoMemory))) }
{
    Ok(FileMedium::open(rt, path)?)
}

/// A medium in memory with the bytes of an image file.
pub(crate) fn sim_medium<R: Files + AllocGlobal>(rt: &R, path: &str) -> Result<SimMedium, Refusal>
    ensures { MatchResult result
        (λ medium. (image : List ℕ) × IsImage image × (medium ≡ simulated image))
        (λ refusal. (refusal ≡ Refusal.ImageLength)
        ⊎ ((refusal ≡ Refusal.FileFailed) ⊎ (refusal ≡ Refusal.NoMemory))) }
{
    let Ok(mut image) = fs::open(rt, path) else {
        return Err(Refusal::FileFailed);
    };
    let image = match read_to_limit(rt.alloc(), &mut image, IMAGE_LIMIT) {
        Ok(image) => image,
        Err(ReadFault::TooLong) => return Err(Refusal::ImageLength),
        Err(ReadFault::NoMemory) => return Err(Refusal::NoMemory),
        Err(ReadFault::Reader) => return Err(Refusal::FileFailed),
    };
    match SimMedium::new(rt.alloc(), image, ROOM) {
        Ok(medium) => Ok(medium),
        Err(SimError::BadLength) => Err(Refusal::ImageLength),
        Err(SimError::NoMemory) => Err(Refusal::NoMemory),
    }
}
