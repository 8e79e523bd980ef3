//! A player served line by line: each line is answered as soon as it is there.
ghost use Rattle.std.specs.Prelude.{◌≡◌, ◌⊎◌, ◌++◌, ◌<◌, ℕ, List, Option, OnOk, OnErr, IfOk, IfErr};
ghost use Rattle.std.specs.Prelude.{MatchOption, MatchResult, [], length, take, ⊤};
ghost use Rattle.std.specs.Io.{ReadsAtMost};
ghost use Rattle.std.specs.Io.KnownBytes.{Consumes, IsAtEnd, ReadConsumes};
ghost use Rattle.usbdisk.specs.runner.Served.{AreAnswered, HasServed, IsAnswered, IsLineStopped};
ghost use Rattle.usbdisk.specs.runner.Served.{IsServedBy};
ghost use Rattle.usbdisk.specs.runner.Served.{IsLineEnd, IsUnended, IsStoppedBy, MayAsk, StopsIn};
ghost use Rattle.usbdisk.specs.runner.Line.{IsScriptLine};
ghost use Rattle.usbdisk.specs.runner.Lines.{lines_of};

use crate::runner::held::LineBuffer;
use crate::runner::line::{ScriptKind, read_line};
use crate::runner::parts::separator_at;
use crate::runner::play::play_asked;
use crate::runner::player::{Player, ServeFault};
use std::io;
use std::io::{ErrorKind, Read, Write};

/// Where lines come from. Who asks it for more shows it what was answered by then.
pub trait LineSource<W: Write> {
    /// The bytes that reads will give from here on, where they are known.
    ghost left: { Self → Option (List ℕ) };

    /// It may be asked for more while this is written.
    ghost may_ask: { Self → Option (List ℕ) → Type 0 };

    /// Reads some bytes, as `Read::read` does.
    ///
    /// # Errors
    ///
    /// Those of the source. `Interrupted` is tried again.
    fn read_behind(&mut self, answered: &W, buf: &mut [u8]) -> io::Result<usize>
        requires { may_ask self.old (W.contents answered.now) }
        ensures bound { ReadsAtMost result buf.new }
        ensures bytes { ReadConsumes (left self.old) (left self.new) result buf.new };
}

// A reader may always be asked.
impl<R: Read, W: Write> LineSource<W> for R {
    ghost left = { λ reader. R.remaining reader };

    ghost may_ask = { λ _ _. ⊤ };

    fn read_behind(&mut self, _answered: &W, buf: &mut [u8]) -> io::Result<usize> {
        self.read(buf)
    }
}

/// Has a player answer the lines of a script, and writes the line of each answer by one write,
/// before more is read; until the player has no answer to an event. The source may be asked for
/// more at least where nothing waits for an answer: at each read all lines of which the line feed
/// was read are answered.
///
/// # Errors
///
/// Those of `ServeFault`, whichever is met first. What was answered stays.
pub fn serve_player<P: Player, S: LineSource<W>, W: Write>(
    player: &mut P,
    source: &mut S,
    out: &mut W,
) -> Result<(), ServeFault>
    requires asks { MayAsk P.goes P.stops (P.most player.old) (W.contents out.old) player.old
        (S.left source.old) S.left S.may_ask }
    ensures served { OnOk result (IsServedBy P.goes P.stops (P.most player.old) (W.contents out.old)
        (W.contents out.new) player.old player.new (S.left source.old) (S.left source.new)) }
    ensures stopped { IfErr result (IsStoppedBy P.goes P.stops (P.most player.old)
        (W.contents out.old) (W.contents out.new) player.old player.new (S.left source.old)
        (S.left source.new)) }
{
    let mut line = LineBuffer::new();
    let mut chunk = [0; 4096];
    'reads: for _ in 0..u64::MAX {
        let count = read_more(source, out, &mut chunk)?;
        if count == 0 {
            return answer_line(player, &line, out);
        }
        serve_bytes(player, &chunk[..count], &mut line, out)?;
    }
    Err(ServeFault::Reader)
}

/// Has a player answer the lines of a script that is there whole, as `serve_player` does.
pub(crate) fn serve_script<P: Player, W: Write>(
    player: &mut P,
    script: &[u8],
    out: &mut W,
) -> Result<(), ServeFault>
    ensures answered { OnOk result (AreAnswered P.goes P.stops (P.most player.old)
        (W.contents out.old) (W.contents out.new) player.old player.new (lines_of script.now)) }
    ensures stopped { IfErr result (StopsIn P.goes P.stops (P.most player.old)
        (W.contents out.old) (W.contents out.new) player.old player.new script.now) }
{
    let mut line = LineBuffer::new();
    serve_bytes(player, script, &mut line, out)?;
    answer_line(player, &line, out)
}

// Reads some bytes, or none at the end. An interrupted read is tried again.
fn read_more<S: LineSource<W>, W: Write>(
    source: &mut S,
    answered: &W,
    chunk: &mut [u8],
) -> Result<usize, ServeFault>
    requires { (later : S.row.Denot) → Consumes (S.left source.old) (S.left later) []
        → S.may_ask later (W.contents answered.now) }
    ensures bound { ReadsAtMost result chunk.new }
    ensures bytes { MatchResult result
        (λ count. Consumes (S.left source.old) (S.left source.new) (take count chunk.new)
        × (count ≡ 0 → 0 < length chunk.new → IsAtEnd (S.left source.new)))
        (λ fault. (fault ≡ ServeFault.Reader)
        × Consumes (S.left source.old) (S.left source.new) []) }
{
    'reads: for _ in 0..u64::MAX {
        match source.read_behind(answered, chunk) {
            Ok(count) => return Ok(count),
            Err(error) if error.kind() == ErrorKind::Interrupted => {}
            Err(_) => return Err(ServeFault::Reader),
        }
    }
    Err(ServeFault::Reader)
}

// Answers each line that these bytes end, and holds what stands behind the last of them.
fn serve_bytes<P: Player, W: Write>(
    player: &mut P,
    bytes: &[u8],
    line: &mut LineBuffer,
    out: &mut W,
) -> Result<(), ServeFault>
    ensures goes_on { OnOk result ((was : Option (List ℕ)) (first : P.row.Denot) (read : List ℕ)
        → HasServed P.goes P.stops (P.most first) was (W.contents out.old) first player.old
        line.old.bytes.items line.old.number read
        → HasServed P.goes P.stops (P.most first) was (W.contents out.new) first player.new
        line.new.bytes.items line.new.number (read ++ bytes.now)) }
    ensures stops { IfErr result (λ fault.
        (was : Option (List ℕ)) (first : P.row.Denot) (read more : List ℕ)
        → HasServed P.goes P.stops (P.most first) was (W.contents out.old) first player.old
        line.old.bytes.items line.old.number read
        → StopsIn P.goes P.stops (P.most first) was (W.contents out.new) first player.new
        (read ++ bytes.now ++ more) fault) }
{
    // A longer line is none of a script for any size of packets.
    let _size = player.longest_packet();
    let mut at = 0;
    'lines: while let Some(end) = line_end(&bytes[at..]) {
        line.hold(&bytes[at..at + end])?;
        answer_line(player, line, out)?;
        line.begin_next();
        at += end + 1;
    }
    line.hold(&bytes[at..])
}

// Where the first line feed stands.
fn line_end(bytes: &[u8]) -> Option<usize>
    ensures { MatchOption result (IsUnended bytes.now) (λ end. IsLineEnd bytes.now end) }
{
    separator_at(bytes, b'\n')
}

// Plays the line that is held, and writes the line of each answer.
fn answer_line<P: Player, W: Write>(
    player: &mut P,
    line: &LineBuffer,
    out: &mut W,
) -> Result<(), ServeFault>
    ensures answered { OnOk result (IsAnswered P.goes P.stops (P.most player.old)
        (W.contents out.old) (W.contents out.new) player.old player.new line.now.bytes.items) }
    ensures stopped { IfErr result (IsLineStopped P.goes P.stops (P.most player.old)
        (W.contents out.old) (W.contents out.new) player.old player.new line.now.bytes.items
        line.now.number) }
{
    let size = player.longest_packet();
    let Some(asked) = read_line(ScriptKind::OneLife, size, line.as_slice()) else {
        return Err(ServeFault::Line(line.number()));
    };
    play_asked(player, asked, out)
}
