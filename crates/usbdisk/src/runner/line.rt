//! One line of a script.
ghost use Rattle.std.specs.Prelude.{◌≡◌, ◌⊎◌, ℕ, IfSome, IfNone};
ghost use Rattle.spec.specs.Packets.{bytes_of};
ghost use Rattle.usbdisk.specs.runner.Line.{Spells, Allows, IsNoSwitch};
ghost use Rattle.usbdisk.specs.declared.runner.line.ScriptLine.{ScriptLine};

use crate::runner::kept::{KeptWrites, read_cut};
use crate::runner::words::{read_count, read_fill, read_out, read_setup};
use arrayvec::ArrayVec;
use bot_machine::PacketSize;

/// Which lines a script may have.
#[derive(Clone, Copy)]
pub enum ScriptKind {
    /// Those of one life: the power stays on, so that `fuse`, `fail` and `cut` are none of its
    /// lines.
    OneLife,
    /// Those of several lives, which end by cuts.
    Lives,
}

/// What a line of a script asks for.
#[derive(Drop)]
pub enum ScriptLine {
    /// Nothing: an empty line or a comment.
    Skipped,
    /// A packet to Bulk-Out.
    Out(ArrayVec<u8, 512>),
    /// `count` times one byte to Bulk-Out, in packets of `size`, the last one shorter.
    Fill {
        byte: u8,
        count: u64,
        size: PacketSize,
    },
    /// A token to Bulk-In.
    In,
    /// A setup packet.
    Setup([u8; 8]),
    /// `count` steps in the background.
    Tick {
        count: u64,
    },
    /// A fuse of `writes` writes and flushes.
    Fuse {
        writes: u64,
    },
    /// A failure of one call of the medium: the one with this number from now, counted from 1.
    Fail {
        call: u64,
    },
    /// A cut of the power.
    Cut(KeptWrites),
}

/// Reads a line, which has no line feed, for packets of a size; `None` where it is no line of such
/// a script.
pub(crate) fn read_line(kind: ScriptKind, size: PacketSize, line: &[u8]) -> Option<ScriptLine>
    ensures spelled { IfSome result (λ asked.
        Spells (bytes_of size) line.now asked × Allows kind asked) }
    ensures refused { IfNone result ((asked : ScriptLine)
        → Spells (bytes_of size) line.now asked → Allows kind asked → ⊥) }
{
    match (kind, read_events(size, line)) {
        (_, Some(asked)) => Some(asked),
        (ScriptKind::OneLife, None) => None,
        (ScriptKind::Lives, None) => read_switch(line),
    }
}

// Reads a line of events.
fn read_events(size: PacketSize, line: &[u8]) -> Option<ScriptLine>
    ensures spelled { IfSome result (λ asked.
        Spells (bytes_of size) line.now asked × Allows ScriptKind.OneLife asked) }
    ensures refused { IfNone result ((asked : ScriptLine)
        → Spells (bytes_of size) line.now asked → Allows ScriptKind.OneLife asked → ⊥) }
{
    match line {
        [] => Some(ScriptLine::Skipped),
        [b'#', ..] => Some(ScriptLine::Skipped),
        b"in" => Some(ScriptLine::In),
        _ => read_sent(size, line),
    }
}

// Reads a line of events with more than one word.
fn read_sent(size: PacketSize, line: &[u8]) -> Option<ScriptLine>
    ensures spelled { IfSome result (λ asked.
        Spells (bytes_of size) line.now asked × Allows ScriptKind.OneLife asked) }
    ensures refused { IfNone result ((asked : ScriptLine)
        → Spells (bytes_of size) line.now asked → Allows ScriptKind.OneLife asked
        → (asked ≡ ScriptLine.Skipped) ⊎ (asked ≡ ScriptLine.In)) }
{
    if let Some(packet) = read_out(line, size) {
        return Some(ScriptLine::Out(packet));
    }
    if let Some((byte, count)) = read_fill(line) {
        return Some(ScriptLine::Fill { byte, count, size });
    }
    if let Some(packet) = read_setup(line) {
        return Some(ScriptLine::Setup(packet));
    }
    let count = read_count(line, b"tick ", 1, 1_000_000)?;
    Some(ScriptLine::Tick { count })
}

// Reads a line that moves the power, or lets a call of the medium fail.
fn read_switch(line: &[u8]) -> Option<ScriptLine>
    ensures spelled { IfSome result (λ asked. (most : ℕ) → Spells most line.now asked) }
    ensures refused { IfNone result (IsNoSwitch line.now) }
{
    if let Some(writes) = read_count(line, b"fuse ", 0, 1_000_000_000) {
        return Some(ScriptLine::Fuse { writes });
    }
    if let Some(call) = read_count(line, b"fail ", 1, 1_000_000_000) {
        return Some(ScriptLine::Fail { call });
    }
    Some(ScriptLine::Cut(read_cut(line)?))
}
