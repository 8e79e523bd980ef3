//! Scripts of packets and tokens, and the text of a disk's answers.
ghost use Rattle.std.specs.Prelude.{IfOk, IfErr, MatchResult};
ghost use Rattle.std.specs.Io.KnownBytes.{IsAtEnd};
ghost use Rattle.spec.specs.Packets.{bytes_of};
ghost use Rattle.usbdisk.specs.runner.Outcome.{IsPlayed, IsRefused, HasTaken};

use crate::runner::fault::{ScriptError, ScriptFault};
use crate::runner::identity::disk_identity;
use crate::runner::line::ScriptKind;
use crate::runner::read_script::read_script;
use crate::runner::serve::serve_script;
use bot_machine::{Disk, PacketSize};
use medium::Medium;
use std::alloc::Global;
use std::io::{Read, Write};

/// Plays a script on a disk over a medium, with packets of a size, and writes the line of each
/// answer at once.
///
/// # Errors
///
/// `Reader`, `TooLong`, `NoMemory`, `Line` and `Start`: no event was played, and nothing was
/// written. `Writer`: what was written is a beginning of the text of the events so far: the whole
/// lines of all answers but the last one, and a first part of that one's, which lacks a byte at
/// least.
pub fn run_script<M: Medium, R: Read, W: Write>(
    alloc: Global,
    medium: M,
    script: &mut R,
    out: &mut W,
    size: PacketSize,
) -> Result<M, ScriptError<M>>
    ensures played { IfOk result (IsPlayed M.state (bytes_of size) (R.remaining script.old)
        (W.contents out.old) (W.contents out.new) medium) }
    ensures refused { IfErr result (λ error. IsRefused M.state (bytes_of size)
        (R.remaining script.old) (W.contents out.old) (W.contents out.new) medium error.fault
        error.medium) }
    ensures taken { MatchResult result (λ _. IsAtEnd (R.remaining script.new)) (λ error.
        HasTaken error.fault (R.remaining script.old) (R.remaining script.new)) }
    ensures follows { MatchResult result (M.follows medium) (λ error.
        M.follows medium error.medium) }
{
    let script = match read_script(alloc, ScriptKind::OneLife, size, script) {
        Ok(script) => script,
        Err(fault) => return Err(ScriptError { fault, medium }),
    };
    let mut disk = Disk::start_with(alloc, medium, disk_identity(), size)?;
    let served = serve_script(&mut disk, script.as_slice(), out);
    let medium = disk.into_medium();
    match served {
        Ok(()) => Ok(medium),
        // Each line is one of a script, and a disk answers each event.
        Err(_) => Err(ScriptError {
            fault: ScriptFault::Writer,
            medium,
        }),
    }
}
