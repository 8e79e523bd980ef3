//! The line that is being read.
ghost use Rattle.std.specs.Prelude.{◌≡◌, ◌<◌, ◌↔◌, ◌++◌, [], ◌+◌, ℕ, List, OnOk, IfErr, IsTrue};
ghost use Rattle.std.specs.Prelude.{codes, min, length};
ghost use Rattle.usbdisk.specs.runner.Served.{IsTooLong, StandsFor};

use crate::runner::player::ServeFault;
use arrayvec::ArrayVec;

/// The most bytes of a line that is no comment: more than any line of a script has.
pub(crate) const LONGEST_SCRIPT_LINE: usize = 1100;

/// The line that is being read, as far as it is there, without memory of its own. Of a comment only
/// a first part is held.
#[derive(Drop)]
pub(crate) struct LineBuffer {
    bytes: ArrayVec<u8, LONGEST_SCRIPT_LINE>,
    // Its number, counted from 1.
    number: u64,
}

impl LineBuffer {
    /// Nothing of the first line.
    pub(crate) fn new() -> LineBuffer
        ensures bytes { result.bytes.items ≡ [] }
        ensures number { result.number ≡ 1 }
    {
        LineBuffer {
            bytes: ArrayVec::new(),
            number: 1,
        }
    }

    /// What is held of the line.
    pub(crate) fn as_slice(&self) -> &[u8]
        ensures { result.now ≡ self.now.bytes.items }
    {
        self.bytes.as_slice()
    }

    /// The number of the line.
    pub(crate) fn number(&self) -> u64
        ensures { result ≡ self.now.number }
    {
        self.number
    }

    /// Takes more bytes of the line.
    ///
    /// # Errors
    ///
    /// The number of a line that has more bytes than any line of a script.
    pub(crate) fn hold(&mut self, part: &[u8]) -> Result<(), ServeFault>
        ensures number { self.new.number ≡ self.old.number }
        ensures held { OnOk result
            (StandsFor self.new.bytes.items (self.old.bytes.items ++ part.now)) }
        ensures too_long { IfErr result (λ fault. (fault ≡ ServeFault.Line self.old.number)
            × IsTooLong (self.old.bytes.items ++ part.now)) }
    {
        let room = self.bytes.remaining_capacity();
        if part.len() <= room {
            let _ = self.bytes.try_extend_from_slice(part);
            return Ok(());
        }
        let _ = self.bytes.try_extend_from_slice(&part[..room]);
        if is_comment(self.bytes.as_slice()) {
            return Ok(());
        }
        Err(ServeFault::Line(self.number))
    }

    /// Goes on to the next line, of which nothing is there.
    pub(crate) fn begin_next(&mut self)
        ensures bytes { self.new.bytes.items ≡ [] }
        ensures number { self.new.number ≡ min (self.old.number + 1) 18446744073709551615 }
    {
        self.bytes.clear();
        self.number = self.number.saturating_add(1);
    }
}

// Whether a line that begins so is a comment.
fn is_comment(line: &[u8]) -> bool
    requires { 0 < length line.now }
    ensures { IsTrue result ↔ ((comment : List ℕ) × (line.now ≡ codes "#" ++ comment)) }
{
    line[0] == b'#'
}
