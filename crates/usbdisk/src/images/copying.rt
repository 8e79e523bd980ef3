//! What a copy of blocks needs.
ghost use Rattle.std.specs.Prelude.{◌≡◌, Some, IfOk, IfErr};
ghost use Rattle.std.specs.Io.KnownBytes.{Appends};
ghost use Rattle.usbdisk.specs.console.Streams.{AppendsSome};
ghost use Rattle.usbdisk.specs.images.Texts.{blocks_text};

use crate::console::{LeftFile, LockedFile, Refusal, Stopped, write_out};
use crate::images::text::blocks_line;
use device_file::CopyBuffer;
use std::alloc::{AllocError, Global};
use std::io::Write;

/// The memory of a copy, all of which is had before a file is made for it.
#[derive(Drop)]
pub(crate) struct CopyRoom {
    pub(crate) buffer: CopyBuffer,
    /// What is told at the end.
    pub(crate) line: Vec<u8>,
}

/// The memory of a copy of `blocks` blocks, with the line that tells at the end what was done.
pub(crate) fn copy_room(alloc: Global, done: &[u8], blocks: u64) -> Result<CopyRoom, Refusal>
    ensures line { IfOk result (λ room. room.line.items ≡ blocks_text done.now blocks) }
    ensures err { IfErr result (λ cause. cause ≡ Refusal.NoMemory) }
{
    match room_for(alloc, done, blocks) {
        Ok(room) => Ok(room),
        Err(_) => Err(Refusal::NoMemory),
    }
}

// The same, where there is memory.
fn room_for(alloc: Global, done: &[u8], blocks: u64) -> Result<CopyRoom, AllocError>
    ensures { IfOk result (λ made. made.line.items ≡ blocks_text done.now blocks) }
{
    Ok(CopyRoom {
        buffer: CopyBuffer::new(alloc)?,
        line: blocks_line(alloc, done, blocks)?,
    })
}

/// Tells what was done, and gives the file that was made for it back.
pub(crate) fn say_done<O: Write>(
    file: LockedFile,
    out: &mut O,
    room: &CopyRoom,
) -> Result<LockedFile, Stopped<LeftFile>>
    ensures told { IfOk result (λ back. (back ≡ file)
        × Appends (O.contents out.old) (O.contents out.new) room.now.line.items) }
    ensures untold { IfErr result (λ stopped.
        (stopped.left ≡ Some file) × (stopped.refusal ≡ Refusal.Streams)
        × AppendsSome (O.contents out.old) (O.contents out.new) room.now.line.items) }
{
    match write_out(out, &room.line) {
        Ok(()) => Ok(file),
        Err(_) => Err(Stopped::with(Refusal::Streams, Some(file))),
    }
}
