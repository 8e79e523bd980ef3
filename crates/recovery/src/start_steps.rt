//! What a start does behind each of its calls.
ghost use Rattle.std.specs.Prelude.{◌≡◌, ◌<◌, ◌≤◌, ◌+◌, ◌^◌, ◌↔◌, ℕ, IfOk, IfErr, IsTrue};
ghost use Rattle.journal.specs.Places.{sectors_of};
ghost use Rattle.journal.specs.Formats.{shape_of};
ghost use Rattle.journal.specs.Sectors.{IsHead, IsSuper};
ghost use Rattle.recovery.specs.Causes.{IsSuperCause};
ghost use Rattle.recovery.specs.Starting.{IsReadFirst, FindsSuper, FindsHead, IsFoundOn, found_by};
ghost use Rattle.recovery.specs.Starting.{CanStart, stage_at, IsSmall};

use crate::copy_step::CopyStep;
use crate::copying::first_step;
use crate::found::Found;
use crate::start_point::StartPoint;
use crate::surveying::Surveying;
use crate::{Recovered, StartFault};
use journal::{Head, Super, SuperFault};

/// Behind the first flush: there is a super to be read, unless there are no sectors.
pub(crate) fn first_read(sectors: u64) -> StartPoint
    ensures { (survey : Surveying) (step : CopyStep)
        → IsReadFirst sectors (stage_at result survey step)
        × CanStart sectors result survey step }
{
    if sectors == 0 {
        StartPoint::Refused(StartFault::BadSize)
    } else {
        StartPoint::ReadSuper
    }
}

/// Behind the read of the super.
pub(crate) fn behind_super(sector: &[u8; 512], sectors: u64) -> StartPoint
    ensures { (survey : Surveying) (step : CopyStep)
        → FindsSuper sectors sector.now (stage_at result survey step)
        × CanStart sectors result survey step }
{
    match sizes_in(sector, sectors) {
        Ok(sizes) => StartPoint::ReadHead(sizes),
        Err(fault) => StartPoint::Refused(fault),
    }
}

// The sizes in a super on a medium of `sectors` sectors, or what is wrong with it.
fn sizes_in(sector: &[u8; 512], sectors: u64) -> Result<Super, StartFault>
    ensures ok { IfOk result (λ sizes. IsSuper (shape_of sizes) sector.now
        × (sectors_of (shape_of sizes) ≤ sectors)) }
    ensures err { IfErr result (IsSuperCause sectors sector.now) }
{
    match Super::decode(sector) {
        Err(SuperFault::Magic) => Err(StartFault::BadSuper),
        Err(SuperFault::Version) => Err(StartFault::BadVersion),
        Err(SuperFault::Rest) => Err(StartFault::BadSuper),
        Err(SuperFault::Sizes) => Err(StartFault::BadSize),
        Ok(sizes) => {
            if sizes.sectors() <= sectors {
                Ok(sizes)
            } else {
                Err(StartFault::BadSize)
            }
        }
    }
}

/// Behind the read of the head: the survey begins. It stands apart, so that the head does not lie
/// on the stack under the reading of the records.
#[inline(never)]
pub(crate) fn behind_head(
    sector: &[u8; 512],
    sizes: &Super,
    least: u64,
    survey: &mut Surveying,
) -> StartPoint
    ensures goes { (step : CopyStep)
        → FindsHead least sizes.now sector.now (stage_at result survey.new step) }
    ensures can { (sectors : ℕ) (step : CopyStep) → sectors_of (shape_of sizes.now) ≤ sectors
        → CanStart sectors result survey.new step }
{
    let Some(head) = Head::decode(sector) else {
        return StartPoint::Refused(StartFault::BadHead);
    };
    if has_few_slots(sizes, least) {
        return StartPoint::Refused(StartFault::LogTooSmall);
    }
    survey.begin(sizes, head.stamp);
    StartPoint::Survey(head.stamp)
}

// Whether the log is of format 1 and has fewer slots than these.
fn has_few_slots(sizes: &Super, least: u64) -> bool
    ensures { IsTrue result ↔ IsSmall least sizes.now }
{
    sizes.format.migrates() && sizes.slots < least
}

/// Behind the last read of the survey: the copying begins, by the same reader.
pub(crate) fn behind_survey(head: u64, survey: &mut Surveying, step: &mut CopyStep) -> StartPoint
    requires { (head < 2 ^ 63) × (survey.old.left ≡ 0) }
    ensures goes { IsFoundOn (found_by head survey.old) (stage_at result survey.new step.new) }
    ensures can { (sectors : ℕ) → sectors_of (shape_of survey.old.reader.sizes) ≤ sectors
        → CanStart sectors result survey.new step.new }
{
    let found = Found {
        sizes: survey.reader.sizes,
        head,
        count: survey.waiting.len() as u64,
    };
    if found.head + found.count >= (1 << 63) - 1 {
        return StartPoint::Refused(StartFault::StampsUsedUp);
    }
    survey.reader.restart(&found.sizes, head);
    *step = first_step(found.count);
    if found.count == 0 {
        return StartPoint::FlushCopies(found);
    }
    StartPoint::Copy(found)
}

/// Writes the head behind what was found into the lent sector. It stands apart as well.
#[inline(never)]
pub(crate) fn put_head(found: &Found, sector: &mut [u8; 512])
    requires { found.now.head + found.now.count + 1 < 2 ^ 63 }
    ensures { IsHead (found.now.head + found.now.count + 1) sector.new }
{
    *sector = Head::new(found.head + found.count + 1).encode();
}

/// What recovery answers of what it found.
pub(crate) fn answer_of(found: &Found) -> Recovered
    requires { found.now.head + found.now.count + 1 < 2 ^ 63 }
    ensures { (result.sizes ≡ found.now.sizes)
        × (result.next ≡ found.now.head + found.now.count + 1) }
{
    Recovered {
        sizes: found.sizes,
        next: found.head + found.count + 1,
    }
}
