//! The steps of a script.
ghost use Rattle.std.specs.Prelude.{◌≡◌, length};
ghost use Rattle.page.specs.Scripts.{step_of};

use crate::extent::Extent;
use byteorder::{ByteOrder, LittleEndian};

/// The bytes of a step.
pub(crate) const STEP: usize = 16;

/// What a host commands, or a step in the background.
#[derive(Clone, Copy)]
pub(crate) enum Command {
    Write(Extent),
    /// A WRITE with FUA.
    Force(Extent),
    Sync,
    Read(Extent),
    Tick,
    Unknown,
}

/// What is done to a disk and its medium.
#[derive(Clone, Copy)]
pub(crate) enum Step {
    Command(Command),
    /// So many writes and flushes still happen.
    Fuse(u64),
    /// The unflushed writes whose bits are set outlive the cut.
    Cut(u64),
    Start,
}

impl Step {
    /// The step of these bytes.
    pub(crate) fn decode(bytes: &[u8]) -> Step
        requires { length bytes.now ≡ 16 }
        ensures { result ≡ step_of bytes.now }
    {
        let extent = Extent {
            first: u64::from(bytes[1]),
            count: bytes[2] as usize,
            fill: bytes[3],
        };
        let number = LittleEndian::read_u64(&bytes[8..]);
        match bytes[0] {
            0 => Step::Command(Command::Write(extent)),
            1 => Step::Command(Command::Force(extent)),
            2 => Step::Command(Command::Sync),
            3 => Step::Command(Command::Read(extent)),
            4 => Step::Command(Command::Tick),
            5 => Step::Fuse(number),
            6 => Step::Cut(number),
            7 => Step::Start,
            _ => Step::Command(Command::Unknown),
        }
    }
}
