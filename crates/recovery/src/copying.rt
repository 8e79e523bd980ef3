//! The copying of whole records home, call by call.
ghost use Rattle.std.specs.Prelude.{◌≡◌, ◌≢◌, ◌<◌, ◌+◌, ◌^◌, false, MatchOption, IfSome};
ghost use Rattle.medium.specs.Performed.{fault_of};
ghost use Rattle.medium.specs.Tally.{none};
ghost use Rattle.journal.specs.Formats.{shape_of};
ghost use Rattle.journal.specs.Naming.{IsReading, IsUnread};
ghost use Rattle.journal.specs.declared.naming_stage.NamingStage.TheVariants.{Named};
ghost use Rattle.journal.specs.declared.naming_stage.NamingStage.TheVariants.{Missing};
ghost use Rattle.recovery.specs.Copying.{CanCopy, copies_left, IsCopyStep, IsTakenOrPassed};
ghost use Rattle.recovery.specs.Copying.{IsBlockStep, copying_of, TellsCopy, copy_kind};

use crate::copy_step::CopyStep;
use journal::{NamingStage, RecordReader, copy_place, slot_of};
use medium::{Call, Medium, MediumFault};

/// The next call of a copying, and in the sector what it writes: what names the blocks of a record
/// is read, and then each block is read and written.
pub(crate) fn next_copy<M: Medium>(
    reader: &RecordReader,
    step: &CopyStep,
    sector: &mut [u8; 512],
) -> Option<Call>
    requires { CanCopy reader.now step.now }
    ensures told { MatchOption result
        ((copies_left reader.now step.now ≡ none) × (sector.new ≡ sector.old))
        (λ call. TellsCopy M.state (copying_of reader.now step.now) sector.old call sector.new) }
    ensures kind { IfSome result
        (λ call. fault_of call ≡ copy_kind reader.now.stage step.now.has_bytes) }
{
    if step.left == 0 {
        return None;
    }
    if let Some(place) = reader.next() {
        return Some(Call::Read(place));
    }
    let sizes = &reader.sizes;
    let i = step.i;
    if !step.has_bytes {
        let slot = slot_of(reader.stamp, sizes.slots);
        return Some(Call::Read(copy_place(sizes.format, slot, i)));
    }
    let first = reader.read.first(i);
    sector[..first.len()].copy_from_slice(first);
    Some(Call::Write(sizes.home_of(reader.read.numbers[i])))
}

/// The kind of that call.
pub(crate) fn kind_of_copy(reader: &RecordReader, step: &CopyStep) -> MediumFault
    requires { reader.now.stage ≢ Missing }
    ensures { result ≡ copy_kind reader.now.stage step.now.has_bytes }
{
    match reader.next() {
        None if step.has_bytes => MediumFault::Write,
        _ => MediumFault::Read,
    }
}

/// It is made, with this sector lent.
pub(crate) fn copy_made(reader: &mut RecordReader, step: &mut CopyStep, sector: &[u8; 512])
    requires { CanCopy reader.old step.old × (0 < step.old.left) }
    ensures { IsCopyStep reader.old step.old sector.now reader.new step.new
        × CanCopy reader.new step.new }
{
    match reader.next() {
        Some(_) => take(reader, step, sector),
        None => block_on(reader, step),
    }
}

// A sector was read that names blocks.
fn take(reader: &mut RecordReader, step: &mut CopyStep, sector: &[u8; 512])
    requires { CanCopy reader.old step.old × IsReading reader.old.stage × (0 < step.old.left) }
    ensures { IsTakenOrPassed reader.old step.old sector.now reader.new step.new
        × CanCopy reader.new step.new }
{
    reader.take(sector);
    match reader.stage {
        NamingStage::Missing => {
            next_record(reader);
            *step = first_step(step.left - 1);
        }
        _ => {}
    }
}

// A block was read, or it was written.
fn block_on(reader: &mut RecordReader, step: &mut CopyStep)
    requires { CanCopy reader.old step.old × (reader.old.stage ≡ Named) × (0 < step.old.left) }
    ensures { IsBlockStep step.old.has_bytes reader.old step.old reader.new step.new
        × CanCopy reader.new step.new }
{
    if !step.has_bytes {
        step.has_bytes = true;
    } else if step.i + 1 < reader.read.numbers.len() {
        step.i += 1;
        step.has_bytes = false;
    } else {
        next_record(reader);
        *step = first_step(step.left - 1);
    }
}

/// The reader goes to the record behind this one.
pub(crate) fn next_record(reader: &mut RecordReader)
    requires { reader.old.stamp + 1 < 2 ^ 64 }
    ensures of { (reader.new.sizes ≡ reader.old.sizes)
        × (reader.new.stamp ≡ reader.old.stamp + 1) }
    ensures unread { IsUnread (shape_of reader.old.sizes) reader.new.stamp reader.new.stage
        reader.new.read }
{
    let sizes = reader.sizes;
    let stamp = reader.stamp + 1;
    reader.restart(&sizes, stamp);
}

/// The first block of a record, of which so many are left.
pub(crate) fn first_step(left: u64) -> CopyStep
    ensures { (result.left ≡ left) × (result.i ≡ 0) × (result.has_bytes ≡ false) }
{
    CopyStep {
        left,
        i: 0,
        has_bytes: false,
    }
}
