//! Writes that wait in an outbox, carried out on another file than the window's.
ghost use Rattle.std.specs.Prelude.{◌≡◌, ◌≤◌, [], true};
ghost use Rattle.window.specs.Seen.{lies_in};
ghost use Rattle.device_file.specs.Copied.{TakesCalls, moved_call, moved_calls, waiting_in};
ghost use Rattle.device_file.specs.InRuns.{IsAskedInRuns, Puts};

use crate::fault::FileFault;
use crate::file::DeviceFile;
use crate::putting::{put_block, put_rest};
use crate::run::Run;
use window::{DeviceCall, SectorWrite, WindowMedium};

/// Takes all that waits out of the outbox of a window, and has a file carry out those writes of it
/// that go to `count` sectors from `first` on: in order, to its own sectors from 0 on,
/// neighbouring ones by one write.
///
/// # Errors
///
/// The first write that the file refused.
pub fn carry_moved<D: DeviceFile>(
    window: &mut WindowMedium,
    first: u64,
    count: u64,
    file: &mut D,
    run: &mut Run,
) -> Result<(), FileFault>
    ensures takes { TakesCalls D.told D.size (moved_calls first count window.old.outbox) file.old
        file.new result }
    ensures runs { IsAskedInRuns D.told D.at_once file.old file.new }
{
    move_all(window, first, count, file, run)?;
    put_rest(file, run)
}

// The same; some writes may be left to be made.
fn move_all<D: DeviceFile>(
    window: &mut WindowMedium,
    first: u64,
    count: u64,
    file: &mut D,
    run: &mut Run,
) -> Result<(), FileFault>
    ensures { Puts D.told D.at_once D.size (moved_calls first count window.old.outbox)
        file.old file.new [] (waiting_in run.new) result }
{
    run.clear();
    while let Some(call) = window.first() {
        let _call = window.take();
        move_call(&call, first, count, file, run)?;
    }
    Ok(())
}

// Has a call wait where it is a write to one of these sectors.
#[tactic(auto, using(crate::proofs::Joined::takes_none))]
fn move_call<D: DeviceFile>(
    call: &DeviceCall,
    first: u64,
    count: u64,
    file: &mut D,
    run: &mut Run,
) -> Result<(), FileFault>
    ensures { Puts D.told D.at_once D.size (moved_call first count call.now) file.old
        file.new (waiting_in run.old) (waiting_in run.new) result }
{
    let DeviceCall::Write(write) = call else {
        return Ok(());
    };
    if !is_among(write.sector, first, count) {
        return Ok(());
    }
    let moved = SectorWrite {
        sector: write.sector - first,
        block: write.block,
    };
    put_block(file, run, &moved)
}

// Whether a sector is one of the `count` sectors from `first` on.
fn is_among(sector: u64, first: u64, count: u64) -> bool
    ensures is { result ≡ lies_in first count sector }
    ensures order { result ≡ true → first ≤ sector }
{
    first <= sector && sector - first < count
}
