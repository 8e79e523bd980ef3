//! A script of several lives, played on a simulated medium.
ghost use Rattle.std.specs.Prelude.{◌≡◌, ◌⊎◌, IfOk, IfErr, MatchResult};
ghost use Rattle.std.specs.Io.KnownBytes.{IsAtEnd};
ghost use Rattle.spec.specs.Packets.{bytes_of};
ghost use Rattle.usbdisk.specs.runner.Lifetimes.{AwaitsLife};
ghost use Rattle.usbdisk.specs.runner.Outcome.{HasTaken};
ghost use Rattle.usbdisk.specs.runner.OutcomeOfLives.{ArePlayed, AreRefused};

use crate::runner::fault::{ScriptError, ScriptFault};
use crate::runner::identity::disk_identity;
use crate::runner::lifetimes::{ScriptText, play_lives};
use crate::runner::line::ScriptKind;
use crate::runner::number_room::NumberRoom;
use crate::runner::read_script::read_script;
use bot_machine::{Lives, PacketSize};
use medium::SimMedium;
use std::alloc::Global;
use std::io::{Read, Write};

/// Plays a script on a disk over a simulated medium, with packets of a size. The power of the
/// medium is on, with nothing unflushed and no fuse armed. Lines `fuse`, `fail` and `cut` are its
/// as well.
///
/// # Errors
///
/// `Reader`, `TooLong`, `NoMemory` and `Line`: nothing was played or written. `Start`: the text of
/// the lives before that start was written. `Writer`: a beginning of the text so far was written:
/// the whole lines of all answers but the last one, and a first part of that one's, which lacks a
/// byte at least.
pub fn sim_script<R: Read, W: Write>(
    alloc: Global,
    medium: SimMedium,
    script: &mut R,
    out: &mut W,
    size: PacketSize,
) -> Result<SimMedium, ScriptError<SimMedium>>
    requires { AwaitsLife medium }
    ensures played { IfOk result (ArePlayed (bytes_of size) (R.remaining script.old)
        (W.contents out.old) (W.contents out.new) medium) }
    ensures refused { IfErr result (λ error. AreRefused (bytes_of size) (R.remaining script.old)
        (W.contents out.old) (W.contents out.new) medium error.fault error.medium) }
    // There may be no memory for the numbers of writes, after all was read.
    ensures taken { MatchResult result (λ _. IsAtEnd (R.remaining script.new)) (λ error.
        HasTaken error.fault (R.remaining script.old) (R.remaining script.new)
        ⊎ ((error.fault ≡ ScriptFault.NoMemory) × IsAtEnd (R.remaining script.new))) }
{
    let script = match read_script(alloc, ScriptKind::Lives, size, script) {
        Ok(script) => script,
        Err(fault) => return Err(ScriptError { fault, medium }),
    };
    let Ok(room) = NumberRoom::new(alloc) else {
        let fault = ScriptFault::NoMemory;
        return Err(ScriptError { fault, medium });
    };
    let lives = Lives::new_with(medium, disk_identity(), size);
    let script = ScriptText {
        bytes: script.as_slice(),
        size,
    };
    play_lives(alloc, lives, room, script, out)
}
