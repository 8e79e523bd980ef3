//! Blocks that a file is asked to write, neighbouring ones by one write.
ghost use Rattle.std.specs.Prelude.{◌≡◌, ◌+◌, ◌*◌, ◌/◌, ◌<◌, ◌≤◌, ◌^◌, ◌∷◌, [], length};
ghost use Rattle.std.specs.Prelude.{OnErr};
ghost use Rattle.medium.specs.Writes.{sector_of};
ghost use Rattle.window.specs.declared.call.DeviceCall.TheVariants.{Write};
ghost use Rattle.device_file.specs.Asked.{AsksFor};
ghost use Rattle.device_file.specs.Reads.{sectors_in};
ghost use Rattle.device_file.specs.Copied.{is_zeros, some_write, some_writes, waiting_in};
ghost use Rattle.device_file.specs.InRuns.{AsksInRuns, Puts};

use crate::fault::{FileCall, FileFault};
use crate::file::DeviceFile;
use crate::run::Run;
use window::{SECTOR, SectorWrite};

/// Has one write more wait in a run. What waits there is written first, where this one is not of
/// the sector behind it.
///
/// # Errors
///
/// The file refused the write of what waited.
pub(crate) fn put_block<D: DeviceFile>(
    file: &mut D,
    run: &mut Run,
    write: &SectorWrite,
) -> Result<(), FileFault>
    ensures { Puts D.told D.at_once D.size (Write write.now ∷ []) file.old file.new
        (waiting_in run.old) (waiting_in run.new) result }
{
    if run.take(write) {
        return Ok(());
    }
    file.write(run)?;
    run.clear();
    let _taken = run.take(write);
    Ok(())
}

/// Writes what waits in a run.
///
/// # Errors
///
/// The file refused that write.
pub(crate) fn put_rest<D: DeviceFile>(file: &mut D, run: &mut Run) -> Result<(), FileFault>
    ensures asks { AsksFor D.told D.size (waiting_in run.old) FileCall.Write file.old file.new
        result }
    ensures some { OnErr result (0 < length (waiting_in run.old)) }
    ensures runs { AsksInRuns D.at_once file.old file.new (waiting_in run.old) [] }
{
    if run.is_empty() {
        return Ok(());
    }
    file.write(run)
}

/// Has the sectors of these bytes wait to be written from this one on, but those of zeros.
///
/// # Errors
///
/// The file refused the write of some that waited.
pub(crate) fn put_sectors<D: DeviceFile>(
    file: &mut D,
    run: &mut Run,
    first: u64,
    bytes: &[u8],
) -> Result<(), FileFault>
    requires { first + length bytes.now / 512 < 2 ^ 64 }
    ensures { Puts D.told D.at_once D.size
        (some_writes first (sectors_in (length bytes.now / 512) bytes.now)) file.old file.new
        (waiting_in run.old) (waiting_in run.new) result }
{
    'sectors: for i in 0..bytes.len() / SECTOR {
        let write = SectorWrite {
            sector: first + i as u64,
            block: block_at(bytes, i),
        };
        put_some(file, run, &write)?;
    }
    Ok(())
}

// Has one write more wait, but none of zeros.
#[tactic(auto, using(crate::proofs::Joined::takes_none))]
fn put_some<D: DeviceFile>(
    file: &mut D,
    run: &mut Run,
    write: &SectorWrite,
) -> Result<(), FileFault>
    ensures { Puts D.told D.at_once D.size (some_write write.now.sector write.now.block)
        file.old file.new (waiting_in run.old) (waiting_in run.new) result }
{
    if has_zeros_alone(&write.block) {
        return Ok(());
    }
    put_block(file, run, write)
}

// A sector of these bytes.
fn block_at(bytes: &[u8], index: usize) -> [u8; 512]
    requires { 512 * (index + 1) ≤ length bytes.now }
    ensures { result ≡ sector_of bytes.now index }
{
    let mut block = [0; SECTOR];
    let at = index * SECTOR;
    block.copy_from_slice(&bytes[at..at + SECTOR]);
    block
}

// Whether a block is zeros.
fn has_zeros_alone(block: &[u8; 512]) -> bool
    ensures { result ≡ is_zeros block.now }
{
    block.iter().all(|byte| *byte == 0)
}
