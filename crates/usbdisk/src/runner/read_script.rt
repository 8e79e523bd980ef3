//! A script is read whole and checked before any line of it is played.
ghost use Rattle.std.specs.Prelude.{All, IfOk, IfErr, MatchResult};
ghost use Rattle.std.specs.Io.KnownBytes.{IsAtEnd};
ghost use Rattle.spec.specs.Packets.{bytes_of};
ghost use Rattle.usbdisk.specs.runner.Line.{IsScriptLine};
ghost use Rattle.usbdisk.specs.runner.Lines.{lines_of};
ghost use Rattle.usbdisk.specs.runner.Outcome.{IsRead, IsNoScript, HasTaken};

use crate::runner::check::check_script;
use crate::runner::fault::ScriptFault;
use crate::runner::line::ScriptKind;
use crate::runner::read::read_to_limit;
use bot_machine::PacketSize;
use std::alloc::Global;
use std::io::Read;

/// The most bytes of a script.
pub const SCRIPT_LIMIT: usize = 1_048_576;

/// The bytes of a script each of whose lines is one of its kind, for packets of a size.
///
/// # Errors
///
/// `Reader`, `TooLong`, `NoMemory` and `Line`.
pub(crate) fn read_script<R: Read>(
    alloc: Global,
    kind: ScriptKind,
    size: PacketSize,
    script: &mut R,
) -> Result<Vec<u8>, ScriptFault>
    ensures read { IfOk result (λ bytes. IsRead (R.remaining script.old) bytes.items) }
    ensures good { IfOk result (λ bytes.
        All (IsScriptLine kind (bytes_of size)) (lines_of bytes.items)) }
    ensures refused { IfErr result (IsNoScript kind (bytes_of size) (R.remaining script.old)) }
    ensures taken { MatchResult result (λ _. IsAtEnd (R.remaining script.new)) (λ fault.
        HasTaken fault (R.remaining script.old) (R.remaining script.new)) }
{
    let script = read_to_limit(alloc, script, SCRIPT_LIMIT)?;
    match check_script(kind, size, script.as_slice()) {
        Ok(()) => Ok(script),
        Err(number) => Err(ScriptFault::Line(number)),
    }
}
