//! The file of a new image, or of a copy.
ghost use Rattle.std.specs.Prelude.{◌≡◌, ◌/◌, Some, IfOk, IfErr, MatchOption};
ghost use Rattle.std.specs.Int.{next_multiple_of};
ghost use Rattle.journal.specs.Places.{IsFirstHome, new_shape, shape_with};
ghost use Rattle.journal.specs.Formats.{shape_of};
ghost use Rattle.device_file.specs.FileValue.{IsMade};
ghost use Rattle.device_file.specs.declared.fault.FileFault.{FileFault};
ghost use Rattle.usbdisk.specs.images.Limits.{AreLimits, IsPage, IsSizesRefusal, MayHave};
ghost use Rattle.usbdisk.specs.images.Limits.{shape_wanted};
ghost use Rattle.usbdisk.specs.images.Opened.{IsTargetUnmade, IsUnmade};
ghost use Rattle.usbdisk.specs.declared.console.refusal.Refusal.TheVariants as refused;

use crate::console::{LockedFile, Refusal, guard_streams};
use crate::images::task::NewSizes;
use device_file::Existing;
use journal::{LogFormat, Super};
use std::fs::{File, Files};

/// Where a file is made, and what is done with one that is there.
#[derive(Drop)]
pub struct FilePlace<'a, R> {
    pub rt: &'a R,
    pub path: &'a str,
    pub existing: Existing,
}

/// The super of an image with these sizes, where it may have them.
pub(crate) fn sizes_of(format: LogFormat, blocks: u64, slots: u64) -> Option<Super>
    ensures { MatchOption result (¬ AreLimits blocks slots)
        (λ sizes. (shape_of sizes ≡ new_shape format blocks slots) × AreLimits blocks slots) }
{
    if blocks < 1 || blocks > 1 << 31 || slots < 1 || slots > 64 {
        return None;
    }
    Some(Super::new(format, blocks, slots))
}

/// The super of a new image with these sizes, of which home begins at a page where one is told.
///
/// # Errors
///
/// `Sizes` and `Align` tell which of them an image may not have.
pub(crate) fn super_of(wanted: &NewSizes) -> Result<Super, Refusal>
    ensures ok { IfOk result
        (λ sizes. (shape_of sizes ≡ shape_wanted wanted.now) × MayHave wanted.now) }
    ensures err { IfErr result (IsSizesRefusal wanted.now) }
{
    let Some(sizes) = sizes_of(wanted.format, wanted.blocks, wanted.slots) else {
        return Err(Refusal::Sizes);
    };
    let Some(bytes) = wanted.align else {
        return Ok(sizes);
    };
    match at_page(&sizes, bytes) {
        Some(paged) => Ok(paged),
        None => Err(Refusal::Align),
    }
}

// The same sizes, with home at the first page of so many bytes from there on, where home may begin
// there.
fn at_page(sizes: &Super, bytes: u64) -> Option<Super>
    ensures { let home = next_multiple_of sizes.now.home (bytes / 512) in
        let may = IsPage bytes × IsFirstHome sizes.now.format sizes.now.slots home in
        MatchOption result (¬ may) (λ paged. (shape_of paged
        ≡ shape_with sizes.now.format sizes.now.blocks sizes.now.slots (Some home)) × may) }
{
    if bytes < 512 || !bytes.is_power_of_two() {
        return None;
    }
    let home = sizes.home.next_multiple_of(bytes / 512);
    Super::with_home(sizes.format, sizes.blocks, sizes.slots, home)
}

/// A file of `sectors` sectors at this path, which was made or emptied now. One that is there is
/// emptied only where it is to be replaced.
pub(crate) fn new_file<R: Files<File = File>>(
    rt: &R,
    path: &str,
    sectors: u64,
    existing: Existing,
) -> Result<LockedFile, Refusal>
    ensures ok { IfOk result (IsMade path.now existing sectors) }
    ensures err { IfErr result (λ refusal. IsUnmade refusal) }
{
    let Some(_streams) = guard_streams(rt) else {
        return Err(Refusal::Streams);
    };
    create(rt, path, sectors, existing)
}

// The same, while all standard streams are held.
fn create<R: Files<File = File>>(
    rt: &R,
    path: &str,
    sectors: u64,
    existing: Existing,
) -> Result<LockedFile, Refusal>
    ensures ok { IfOk result (λ made. IsMade path.now existing sectors made) }
    ensures err { IfErr result (λ refusal. (fault : FileFault) × (refusal ≡ refused.File fault)) }
{
    match device_file::create(rt, path, sectors, existing) {
        Ok(file) => Ok(file),
        Err(fault) => Err(Refusal::File(fault)),
    }
}

/// The same, for the second file that a line names.
pub(crate) fn new_target<R: Files<File = File>>(
    place: FilePlace<R>,
    sectors: u64,
) -> Result<LockedFile, Refusal>
    ensures ok { IfOk result
        (λ target. IsMade place.entry.path.now place.entry.existing sectors target) }
    ensures err { IfErr result IsTargetUnmade }
{
    match new_file(place.rt, place.path, sectors, place.existing) {
        Ok(file) => Ok(file),
        Err(Refusal::File(fault)) => Err(Refusal::Target(fault)),
        Err(_) => Err(Refusal::Streams),
    }
}
