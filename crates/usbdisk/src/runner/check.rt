//! A script is checked whole before any line of it is played.
ghost use Rattle.std.specs.Prelude.{◌≤◌, All, OnOk, IfErr, length};
ghost use Rattle.spec.specs.Packets.{bytes_of};
ghost use Rattle.usbdisk.specs.runner.Line.{IsScriptLine};
ghost use Rattle.usbdisk.specs.runner.Lines.{lines_of};
ghost use Rattle.usbdisk.specs.runner.Script.{IsFirstBadLine};

use crate::runner::line::{ScriptKind, read_line};
use crate::runner::parts::Parts;
use crate::runner::read_script::SCRIPT_LIMIT;
use bot_machine::PacketSize;

/// Checks a whole script, for packets of a size; an `Err` is the number of the first line that is
/// none of its kind, counted from 1.
pub(crate) fn check_script(kind: ScriptKind, size: PacketSize, script: &[u8]) -> Result<(), u64>
    requires { length script.now ≤ SCRIPT_LIMIT }
    ensures good { OnOk result (All (IsScriptLine kind (bytes_of size)) (lines_of script.now)) }
    ensures bad { IfErr result (λ number.
        IsFirstBadLine kind (bytes_of size) number (lines_of script.now)) }
{
    let mut number = 0;
    for line in Parts::lines(script) {
        number += 1;
        let Some(_) = read_line(kind, size, line) else {
            return Err(number);
        };
    }
    Ok(())
}
