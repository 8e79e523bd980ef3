//! A checked script of several lives, played on a simulated medium.
ghost use Rattle.std.specs.Prelude.{◌≡◌, ◌∷◌, [], List, All, OnOk, IfOk, IfErr, flat_map};
ghost use Rattle.bot_machine.specs.Fitting.{AreWithin, IsWithin};
ghost use Rattle.spec.specs.Lives.{Action, cuts};
ghost use Rattle.spec.specs.Packets.{bytes_of};
ghost use Rattle.usbdisk.specs.runner.Line.{IsScriptLine};
ghost use Rattle.usbdisk.specs.runner.Lines.{lines_of};
ghost use Rattle.usbdisk.specs.runner.Events.{events_of};
ghost use Rattle.usbdisk.specs.runner.Lifetimes.{LineActs, comes, is_kept};
ghost use Rattle.usbdisk.specs.runner.PlayedLives.{Acted, TellsLives, BreaksOff, PlaysAll};
ghost use Rattle.usbdisk.specs.runner.PlayedLives.{PlaysUpTo};

use crate::console::write_out;
use crate::runner::fault::{ScriptError, ScriptFault};
use crate::runner::kept::KeptWrites;
use crate::runner::line::{ScriptKind, ScriptLine, read_line};
use crate::runner::number_room::NumberRoom;
use crate::runner::parts::Parts;
use crate::runner::text::event_line;
use bot_machine::{Event, Lives, PacketSize};
use medium::{Kept, SimMedium};
use std::alloc::Global;
use std::io::Write;

/// The bytes of a script of several lives, or of one of its lines, and the size of its packets.
#[derive(Clone, Copy)]
pub(crate) struct ScriptText<'a> {
    pub(crate) bytes: &'a [u8],
    pub(crate) size: PacketSize,
}

/// Plays every line of a script, and writes the line of each answer at once. A start alone takes
/// memory.
pub(crate) fn play_lives<W: Write>(
    alloc: Global,
    mut lives: Lives,
    mut room: NumberRoom,
    script: ScriptText,
    out: &mut W,
) -> Result<SimMedium, ScriptError<SimMedium>>
    requires good { All (IsScriptLine ScriptKind.Lives (bytes_of script.size))
        (lines_of script.bytes.now) }
    requires packets { lives.device.packet_size ≡ bytes_of script.size }
    ensures played { IfOk result (PlaysAll (W.contents out.old) (W.contents out.new) lives
        (bytes_of script.entry.size) (lines_of script.entry.bytes.now)) }
    ensures broken { IfErr result (λ error. PlaysUpTo (W.contents out.old) (W.contents out.new)
        lives (bytes_of script.entry.size) (lines_of script.entry.bytes.now) error.fault
        error.medium) }
{
    let size = script.size;
    for bytes in Parts::lines(script.bytes) {
        match play_line(alloc, &mut lives, room, ScriptText { bytes, size }, out) {
            Ok(back) => room = back,
            Err(fault) => {
                return Err(ScriptError {
                    fault,
                    medium: lives.into_medium(),
                });
            }
        }
    }
    Ok(lives.into_medium())
}

// Plays one line. The room comes back.
fn play_line<W: Write>(
    alloc: Global,
    lives: &mut Lives,
    room: NumberRoom,
    line: ScriptText,
    out: &mut W,
) -> Result<NumberRoom, ScriptFault>
    requires good { IsScriptLine ScriptKind.Lives (bytes_of line.size) line.bytes.now }
    requires packets { lives.old.device.packet_size ≡ bytes_of line.size }
    ensures played { OnOk result ((actions : List Action)
        × LineActs (bytes_of line.entry.size) line.entry.bytes.now actions
        × TellsLives (W.contents out.old) (W.contents out.new) lives.old actions lives.new) }
    ensures broken { IfErr result (λ fault. (actions : List Action)
        × LineActs (bytes_of line.entry.size) line.entry.bytes.now actions
        × BreaksOff (W.contents out.old) (W.contents out.new) lives.old actions lives.new fault) }
{
    match read_line(ScriptKind::Lives, line.size, line.bytes).unwrap() {
        ScriptLine::Fuse { writes } => {
            lives.fuse(writes);
            Ok(room)
        }
        ScriptLine::Fail { call } => {
            lives.fail(call);
            Ok(room)
        }
        ScriptLine::Cut(kept) => Ok(cut(lives, &kept, room)),
        asked => match play_events(alloc, lives, asked, out) {
            Ok(()) => Ok(room),
            Err(fault) => Err(fault),
        },
    }
}

// Plays the events of one line.
fn play_events<W: Write>(
    alloc: Global,
    lives: &mut Lives,
    asked: ScriptLine,
    out: &mut W,
) -> Result<(), ScriptFault>
    requires { AreWithin lives.old.device.packet_size (events_of asked) }
    ensures played { OnOk result (TellsLives (W.contents out.old) (W.contents out.new) lives.old
        (flat_map comes (events_of asked)) lives.new) }
    ensures broken { IfErr result (BreaksOff (W.contents out.old) (W.contents out.new) lives.old
        (flat_map comes (events_of asked)) lives.new) }
{
    for event in asked {
        play_event(alloc, lives, &event, out)?;
    }
    Ok(())
}

// Plays one event.
fn play_event<W: Write>(
    alloc: Global,
    lives: &mut Lives,
    event: &Event,
    out: &mut W,
) -> Result<(), ScriptFault>
    requires { IsWithin lives.old.device.packet_size event.now }
    ensures played { OnOk result (TellsLives (W.contents out.old) (W.contents out.new) lives.old
        (comes event.now) lives.new) }
    ensures broken { IfErr result (BreaksOff (W.contents out.old) (W.contents out.new) lives.old
        (comes event.now) lives.new) }
{
    let answer = lives.event(alloc, event)?;
    match write_out(out, event_line(event, &answer).as_slice()) {
        Ok(()) => Ok(()),
        Err(_) => Err(ScriptFault::Writer),
    }
}

// Cuts the power. The room comes back.
fn cut(lives: &mut Lives, kept: &KeptWrites, mut room: NumberRoom) -> NumberRoom
    ensures { Acted lives.old (cuts (is_kept kept.now) ∷ []) [] lives.new }
{
    let these = match kept {
        KeptWrites::None => {
            lives.cut(&Kept::None);
            return room;
        }
        KeptWrites::All => {
            lives.cut(&Kept::All);
            return room;
        }
        KeptWrites::These(these) => these,
    };
    room.fill(these.as_slice());
    let kept = Kept::These(room.numbers);
    lives.cut(&kept);
    match kept {
        Kept::These(numbers) => NumberRoom { numbers },
        Kept::None | Kept::All | Kept::Mask(_) => unreachable!(),
    }
}
