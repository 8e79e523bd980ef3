//! Events played by a player, and the lines of its answers.
ghost use Rattle.std.specs.Prelude.{◌∷◌, [], OnOk, IfErr};
ghost use Rattle.std.specs.Io.KnownBytes.{Appends};
ghost use Rattle.bot_machine.specs.Fitting.{AreWithin, IsWithin};
ghost use Rattle.spec.specs.declared.event.Answer.{Answer};
ghost use Rattle.usbdisk.specs.runner.Events.{events_of};
ghost use Rattle.usbdisk.specs.runner.Played.{TellsBy};
ghost use Rattle.usbdisk.specs.runner.Served.{IsPlayedInPart, IsUnanswered};
ghost use Rattle.usbdisk.specs.runner.Text.{line_for};

use crate::console::write_out;
use crate::runner::line::ScriptLine;
use crate::runner::player::{Player, ServeFault};
use crate::runner::text::event_line;
use bot_machine::Event;
use std::io::Write;

/// Plays the events of a line, and writes the line of each answer at once.
pub(crate) fn play_asked<P: Player, W: Write>(
    player: &mut P,
    asked: ScriptLine,
    out: &mut W,
) -> Result<(), ServeFault>
    requires within { AreWithin (P.most player.old) (events_of asked) }
    ensures played { OnOk result (TellsBy P.goes (W.contents out.old) (W.contents out.new)
        player.old (events_of asked) player.new) }
    ensures cut_short { IfErr result (IsPlayedInPart P.goes P.stops (P.most player.old)
        (W.contents out.old) (W.contents out.new) player.old player.new (events_of asked)) }
{
    for event in asked {
        play_event(player, &event, out)?;
    }
    Ok(())
}

// Plays one event, and writes the line of its answer.
fn play_event<P: Player, W: Write>(
    player: &mut P,
    event: &Event,
    out: &mut W,
) -> Result<(), ServeFault>
    requires { IsWithin (P.most player.old) event.now }
    ensures played { OnOk result ((answer : Answer)
        × P.goes player.old (event.now ∷ []) (answer ∷ []) player.new
        × Appends (W.contents out.old) (W.contents out.new) (line_for event.now answer)) }
    ensures cut_short { IfErr result (IsUnanswered P.goes P.stops (P.most player.old)
        (W.contents out.old) (W.contents out.new) player.old player.new event.now) }
{
    let Some(answer) = player.play(event) else {
        return Err(ServeFault::Player);
    };
    if write_out(out, event_line(event, &answer).as_slice()).is_err() {
        return Err(ServeFault::Writer);
    }
    Ok(())
}
