//! The making of an image.
ghost use Rattle.std.specs.Prelude.{◌≡◌, ◌<◌, ◌≤◌, ◌+◌, ◌*◌, OnOk, OnErr, IfErr, MatchOption};
ghost use Rattle.journal.specs.declared.log_format.LogFormat.TheVariants.{One, Two};
ghost use Rattle.journal.specs.Places.{new_shape, shape_with, sectors_of, slot_sectors_of};
ghost use Rattle.journal.specs.Formats.{shape_of};
ghost use Rattle.recovery.specs.Calls.{CallsUpTo, AreSizes, IsFormatted, FormatLeaves};
ghost use Rattle.recovery.specs.Calls.{IsFormatCause, Formats, WritesImage};

use crate::FormatFault;
use crate::image_plan::ImagePlan;
use crate::image_stage::ImageStage;
use crate::new_image::NewImage;
use journal::{Head, LogFormat, Super};
use medium::{Medium, MediumFault, drive};

/// The super of a new image of these sizes, where they are in their limits and this many sectors
/// are enough for them.
pub fn sizes_of(format: LogFormat, sectors: u64, blocks: u64, slots: u64) -> Option<Super>
    ensures { let shape = new_shape format blocks slots in
        MatchOption result (¬ AreSizes sectors shape)
        (λ sizes. (shape_of sizes ≡ shape) × AreSizes sectors shape) }
{
    if blocks < 1 || blocks > 1 << 31 || slots < 1 || slots > 64 {
        return None;
    }
    let sizes = Super::new(format, blocks, slots);
    if sizes.sectors() <= sectors {
        Some(sizes)
    } else {
        None
    }
}

/// The same, with block 0 at home in this sector where one is given: directly behind the log, or in
/// format 2 up to 248 sectors further.
pub fn sizes_with(
    format: LogFormat,
    sectors: u64,
    blocks: u64,
    slots: u64,
    home: Option<u64>,
) -> Option<Super>
    ensures { let shape = shape_with format blocks slots home in
        MatchOption result (¬ AreSizes sectors shape)
        (λ sizes. (shape_of sizes ≡ shape) × AreSizes sectors shape) }
{
    let Some(home) = home else {
        return sizes_of(format, sectors, blocks, slots);
    };
    let sizes = Super::with_home(format, blocks, slots, home)?;
    if sizes.sectors() <= sectors {
        Some(sizes)
    } else {
        None
    }
}

/// Writes super, head and log of an image of these sizes, and zeros in what lies behind the log, up
/// to this end. The super goes first and comes last, so that one that is cut in between leaves no
/// image.
pub(crate) fn write_image<M: Medium>(m: &mut M, sizes: &Super, end: u64) -> Result<(), MediumFault>
    requires fits { sectors_of (shape_of sizes.now) ≤ (M.state m.old).size }
    requires log { sizes.now.home ≤ end }
    requires inside { end ≤ sectors_of (shape_of sizes.now) }
    ensures image { WritesImage (shape_of sizes.now) end (M.state m.old) (M.state m.new) result }
    ensures follows { M.follows m.old m.new }
{
    let plan = ImagePlan {
        sizes: *sizes,
        head: Head::new(1),
        end,
    };
    let mut image = NewImage {
        plan,
        stage: ImageStage::Wipe,
    };
    drive(m, &mut image, &mut [0; 512])
}

/// Makes an image of this format: `blocks` blocks of zeros, 1 to 2^31, and `slots` log slots, 1 to
/// 64. `format` and `format2` make one of format 1 and one of format 2.
///
/// It takes two sectors, those of the slots, and `blocks`. Until its first good flush a cut may
/// leave what it could leave before, from then on no super, and in the end the new image.
///
/// # Errors
///
/// Those of `format`.
pub fn make<M: Medium>(
    m: &mut M,
    format: LogFormat,
    blocks: u64,
    slots: u64,
) -> Result<(), FormatFault>
    ensures { Formats M.state M.follows (new_shape format blocks slots) m.old m.new result }
{
    let sizes = sizes_of(format, m.sectors(), blocks, slots).ok_or(FormatFault::BadSize)?;
    write_image(m, &sizes, sizes.sectors())?;
    Ok(())
}

/// Makes an image of format 1: `blocks` blocks of zeros, 1 to 2^31, and `slots` log slots, 1 to 64.
///
/// It takes `2 + 50 * slots + blocks` sectors. Until its first good flush a cut may leave what it
/// could leave before, from then on no super, and in the end the new image.
///
/// # Errors
///
/// `BadSize` where a size is out of its limits or the medium is too short, before any call;
/// `Medium` where the medium refused a call: there may be no image then.
pub fn format<M: Medium>(m: &mut M, blocks: u64, slots: u64) -> Result<(), FormatFault>
    ensures ok { let shape = new_shape One blocks slots in
        OnOk result (IsFormatted shape (M.state m.new)) }
    // A size that is out of its limits is refused before any call.
    ensures err { let shape = new_shape One blocks slots in
        IfErr result (λ fault. IsFormatCause shape (M.state m.old) (M.state m.new) fault
        × (fault ≡ FormatFault.BadSize → m.new ≡ m.old)) }
    ensures leaves { let shape = new_shape One blocks slots in
        FormatLeaves shape (M.state m.old) (M.state m.new) }
    ensures calls { CallsUpTo (7 + slot_sectors_of One * slots + blocks)
        (M.state m.old) (M.state m.new) result }
    ensures follows { M.follows m.old m.new }
{
    make(m, LogFormat::One, blocks, slots)
}

/// Makes an image of format 2: `blocks` blocks of zeros, 1 to 2^31, and `slots` log slots, 1 to 64.
///
/// It takes `2 + 249 * slots + blocks` sectors. A cut leaves what it leaves while an image of
/// format 1 is made.
///
/// # Errors
///
/// Those of `format`.
pub fn format2<M: Medium>(m: &mut M, blocks: u64, slots: u64) -> Result<(), FormatFault>
    ensures ok { let shape = new_shape Two blocks slots in
        OnOk result (IsFormatted shape (M.state m.new)) }
    // A size that is out of its limits is refused before any call.
    ensures err { let shape = new_shape Two blocks slots in
        IfErr result (λ fault. IsFormatCause shape (M.state m.old) (M.state m.new) fault
        × (fault ≡ FormatFault.BadSize → m.new ≡ m.old)) }
    ensures leaves { let shape = new_shape Two blocks slots in
        FormatLeaves shape (M.state m.old) (M.state m.new) }
    ensures calls { CallsUpTo (7 + slot_sectors_of Two * slots + blocks)
        (M.state m.old) (M.state m.new) result }
    ensures follows { M.follows m.old m.new }
{
    make(m, LogFormat::Two, blocks, slots)
}
