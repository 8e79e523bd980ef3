//! Sectors of one file that are copied to another.
ghost use Rattle.std.specs.Prelude.{◌≡◌, ◌+◌, ◌*◌, ◌<◌, ◌≤◌, ◌^◌, [], length, OnOk, IfErr};
ghost use Rattle.device_file.specs.Copied.{IsCopied, IsCopiedInPart, TakesBlocks, waiting_in};
ghost use Rattle.device_file.specs.InRuns.{IsAskedInRuns};

use crate::buffer::CopyBuffer;
use crate::fault::FileFault;
use crate::file::DeviceFile;
use crate::meter::Meter;
use crate::putting::{put_rest, put_sectors};
use crate::run::Run;
use window::SECTOR;

/// Why sectors of one file were not copied to another: the file that refused a call.
#[derive(Clone, Copy, Debug, PartialEq, Eq)]
pub enum CopyFault {
    /// The one that was read.
    From(FileFault),
    /// The one that was written.
    To(FileFault),
}

/// Which sectors of a file are copied, and which of another they become: `count` sectors from
/// `first` on, and those from `at` on. Both have numbers.
#[derive(Clone, Copy)]
pub struct CopyRange {
    pub first: u64,
    pub count: u64,
    pub at: u64,
    pub ghost reads: { first + count < 2 ^ 64 },
    pub ghost writes: { at + count < 2 ^ 64 },
}

/// Copies sectors of a file to another file that was just made or emptied. Blocks of zeros are not
/// written, since they are there. As many sectors are read at once as the buffer has bytes for, and
/// behind each such read the meter hears how many it were by then.
///
/// # Errors
///
/// The first call that a file refused: a read of the sectors that come next, or a write. Nothing
/// was asked of either after that.
pub fn copy_sectors<S: DeviceFile, D: DeviceFile, M: Meter>(
    from: &S,
    range: CopyRange,
    to: &mut D,
    buffer: &mut CopyBuffer,
    meter: &mut M,
) -> Result<(), CopyFault>
    ensures ok { OnOk result (IsCopied (S.holds from.now) range.first range.count range.at
        (D.told to.old) (D.told to.new)) }
    ensures err { IfErr result (IsCopiedInPart (S.holds from.now) (S.refuses from.now) range.first
        range.count range.at (D.told to.old) (D.told to.new)) }
    ensures size { D.size to.new ≡ D.size to.old }
    ensures runs { IsAskedInRuns D.told D.at_once to.old to.new }
{
    match copy_runs(from, range, to, buffer, meter) {
        Err(fault) => Err(fault),
        Ok(()) => match put_rest(to, &mut buffer.run) {
            Ok(()) => Ok(()),
            Err(fault) => Err(CopyFault::To(fault)),
        },
    }
}

// The same; writes may be left to be made.
fn copy_runs<S: DeviceFile, D: DeviceFile, M: Meter>(
    from: &S,
    range: CopyRange,
    to: &mut D,
    buffer: &mut CopyBuffer,
    meter: &mut M,
) -> Result<(), CopyFault>
    ensures { TakesBlocks D.told D.at_once D.size (S.holds from.now) (S.refuses from.now)
        range.first range.count range.at to.old to.new [] (waiting_in buffer.new.run) result }
{
    let most = buffer.sectors();
    let (run, bytes) = (&mut buffer.run, buffer.bytes.as_mut_slice());
    run.clear();
    let mut done = 0;
    'runs: while done < range.count {
        let part = CopyRange {
            first: range.first + done,
            count: most.min(range.count - done),
            at: range.at + done,
        };
        let length = part.count as usize * SECTOR;
        match copy_run(from, part, to, run, &mut bytes[..length]) {
            Ok(()) => done += part.count,
            Err(fault) => return Err(fault),
        }
        meter.progress(done, range.count);
    }
    Ok(())
}

// Copies sectors by one read; writes may be left to be made.
fn copy_run<S: DeviceFile, D: DeviceFile>(
    from: &S,
    part: CopyRange,
    to: &mut D,
    run: &mut Run,
    bytes: &mut [u8],
) -> Result<(), CopyFault>
    requires { (length bytes.old ≡ 512 * part.count) × (1 ≤ part.count) }
    ensures takes { TakesBlocks D.told D.at_once D.size (S.holds from.now) (S.refuses from.now)
        part.first part.count part.at to.old to.new (waiting_in run.old) (waiting_in run.new)
        result }
    ensures once { OnOk result (S.gave from.now part.first bytes.new) }
{
    match from.read(part.first, bytes) {
        Err(fault) => Err(CopyFault::From(fault)),
        Ok(()) => match put_sectors(to, run, part.at, bytes) {
            Ok(()) => Ok(()),
            Err(fault) => Err(CopyFault::To(fault)),
        },
    }
}
