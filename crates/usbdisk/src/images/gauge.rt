//! A line of progress, at a terminal alone.
ghost use Rattle.std.specs.Prelude.{◌≡◌, false};

use device_file::Meter;
use std::io::{IsTerminal, Write};

// How many sectors lie between two words: 256 MiB.
const STEP: u64 = 524_288;

// How many sectors a MiB has.
const MIB: u64 = 2048;

/// Tells on one line how much of a copy is done, each 256 MiB, where a terminal reads it. Elsewhere
/// nothing is told.
#[derive(Drop)]
pub(crate) struct Gauge<'a, E: Write> {
    to: &'a mut E,
    is_shown: bool,
    steps: u64,
}

impl<'a, E: Write + IsTerminal> Gauge<'a, E> {
    /// Nothing is told yet.
    pub(crate) fn new(to: &'a mut E) -> Gauge<'a, E> {
        let is_shown = to.is_terminal();
        Gauge {
            to,
            is_shown,
            steps: 0,
        }
    }

    /// Ends the line, where something was told.
    pub(crate) fn end(self) {
        let is_shown = self.is_shown;
        if self.steps > 0 {
            write_word(self.to, is_shown, Word::End);
        }
    }
}

impl<'a, E: Write> Meter for Gauge<'a, E> {
    fn progress(&mut self, done: u64, all: u64) {
        let steps = done / STEP;
        if steps > self.steps {
            self.steps = steps;
            write_word(self.to, self.is_shown, Word::Part { done, all });
        }
    }
}

// What is written of a copy.
#[derive(Clone, Copy)]
enum Word {
    /// `done` sectors of `all`, over what stands on the line.
    Part { done: u64, all: u64 },
    /// The end of the line.
    End,
}

// Writes a word, where it is shown.
fn write_word<E: Write>(to: &mut E, is_shown: bool, word: Word)
    ensures { is_shown ≡ false → to.new ≡ to.old }
{
    if is_shown {
        show_word(to, word);
    }
}

// Writes a word, and has it seen at once.
fn show_word<E: Write>(to: &mut E, word: Word) {
    let _ = match word {
        Word::Part { done, all } => write!(to, "\r{} of {} MiB", done / MIB, all / MIB),
        Word::End => to.write_all(b"\n"),
    };
    let _ = to.flush();
}
