//! The carrying out of an outbox by a file.
ghost use Rattle.std.specs.Prelude.{◌≡◌, ◌<◌, [], ◌∷◌, Some, length};
ghost use Rattle.window.specs.declared.call.DeviceCall.TheVariants.{Write, Flush};
ghost use Rattle.window.specs.OutboxMedium.{first_of};
ghost use Rattle.window.specs.Window.{without_first};
ghost use Rattle.device_file.specs.Asked.{AsksFor, writes_of};
ghost use Rattle.device_file.specs.Outbox.{LetsGo, CarriesOut, CarriesSome, Begins};
ghost use Rattle.device_file.specs.InRuns.{AsksInRuns, AsksRun, IsLongest};

use crate::fault::{FileCall, FileFault};
use crate::file::DeviceFile;
use crate::run::{RUN_SECTORS, Run};
use window::{DeviceCall, SectorWrite, WindowMedium};

/// Has a file carry out all that waits in the outbox of a window, in order, neighbouring sectors by
/// one write. It takes no memory.
///
/// # Errors
/// The first call that the file refused. What was not asked of it then waits in the outbox still.
pub fn carry_out<D: DeviceFile>(
    window: &mut WindowMedium,
    file: &mut D,
    run: &mut Run,
) -> Result<(), FileFault>
    ensures carries { CarriesOut D.told D.size file.old file.new window.old window.new result }
    ensures runs { AsksInRuns D.at_once file.old file.new window.old.outbox window.new.outbox }
{
    while let Some(call) = window.first() {
        carry_first(&call, window, file, run)?;
    }
    Ok(())
}

// Has a file carry out the call that waits first. Behind a write that are those of neighbouring
// sectors too.
fn carry_first<D: DeviceFile>(
    call: &DeviceCall,
    window: &mut WindowMedium,
    file: &mut D,
    run: &mut Run,
) -> Result<(), FileFault>
    requires { first_of window.old.outbox ≡ Some call.now }
    ensures some { CarriesSome D.told D.size file.old file.new window.old window.new result }
    ensures run { AsksRun D.at_once file.old file.new window.old.outbox window.new.outbox }
{
    match call {
        DeviceCall::Write(_) => {
            gather(window, run);
            file.write(run)
        }
        DeviceCall::Flush => carry_flush(window, file),
    }
}

// Has a file carry out a flush that waits first.
fn carry_flush<D: DeviceFile>(window: &mut WindowMedium, file: &mut D) -> Result<(), FileFault>
    ensures asks { AsksFor D.told D.size (Flush ∷ []) FileCall.Sync file.old file.new result }
    ensures once { D.at_once file.old (Flush ∷ []) file.new }
    ensures taken { window.new ≡ without_first window.old }
{
    let _flush = window.take();
    file.sync()
}

// Takes writes of neighbouring sectors out of the outbox, until another call waits or the run is
// full.
fn gather(window: &mut WindowMedium, run: &mut Run)
    ensures taken { LetsGo (writes_of run.new.first run.new.blocks.items) window.old window.new }
    ensures some { Begins window.old.outbox → length window.new.outbox < length window.old.outbox }
    ensures longest { IsLongest run.new.first run.new.blocks.items window.new.outbox }
{
    run.clear();
    'calls: for _ in 0..RUN_SECTORS {
        let Some(DeviceCall::Write(write)) = window.first() else {
            return;
        };
        if !run.take(&write) {
            return;
        }
        let _taken = window.take();
    }
}

/// Has a file write one sector.
///
/// # Errors
///
/// The file refused the call.
pub fn write_sector<D: DeviceFile>(
    file: &mut D,
    run: &mut Run,
    sector: u64,
    block: &[u8; 512],
) -> Result<(), FileFault>
    ensures { AsksFor D.told D.size (Write (record { sector = sector; block = block.now }) ∷ [])
        FileCall.Write file.old file.new result }
{
    run.clear();
    let _taken = run.take(&SectorWrite {
        sector,
        block: *block,
    });
    file.write(run)
}
