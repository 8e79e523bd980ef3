//! The format of a log.
use crate::{v1, v2};

// In format 2 the commit alone tells whether a record is there.
const COMMIT_ALONE: u64 = 1;

/// How records lie in the slots of a log, and how many blocks a record has at most.
#[derive(Clone, Copy, Debug, PartialEq, Eq)]
pub enum LogFormat {
    /// A descriptor, up to 48 data places and a commit, with a flush before the commit.
    One,
    /// Up to 8 descriptors, up to 240 data places and a commit, with one flush behind them.
    Two,
}

impl LogFormat {
    ghost use Rattle.std.specs.Prelude.{◌≡◌, ◌≢◌, ◌↔◌, IfSome, IsTrue, None};
    ghost use Rattle.journal.specs.Places.{flushes_of, limit_of, slot_sectors_of, gap_of};
    ghost use Rattle.journal.specs.Places.{record_calls_of, told_of, told_place};
    ghost use Rattle.journal.specs.Sectors.{version_of};

    /// How many blocks a record has at most, which is what a batch and a transfer have at most.
    pub fn limit(self) -> u32
        ensures { result ≡ limit_of self }
    {
        match self {
            LogFormat::One => v1::LIMIT,
            LogFormat::Two => v2::LIMIT,
        }
    }

    /// How many sectors a slot has.
    pub fn slot_sectors(self) -> u64
        ensures { result ≡ slot_sectors_of self }
    {
        match self {
            LogFormat::One => v1::SLOT_SECTORS,
            LogFormat::Two => v2::SLOT_SECTORS,
        }
    }

    /// How many flushes make a record durable.
    pub fn flushes(self) -> usize
        ensures { result ≡ flushes_of self }
    {
        match self {
            LogFormat::One => 2,
            LogFormat::Two => 1,
        }
    }

    /// How many calls a record of the most blocks takes: its sectors with their flushes, and then
    /// its blocks home, the head, and a flush before and behind it.
    pub fn record_calls(self) -> u64
        ensures { result ≡ record_calls_of self }
    {
        let sent = self.slot_sectors() + self.flushes() as u64;
        sent + u64::from(self.limit()) + 3
    }

    /// The sectors of a slot that tell whether a record stands there lie in one run: how many they
    /// are. In format 1 that is the whole slot, and in format 2 the commit alone.
    pub fn told_sectors(self) -> u64
        ensures { result ≡ told_of self }
    {
        match self {
            LogFormat::One => self.slot_sectors(),
            LogFormat::Two => COMMIT_ALONE,
        }
    }

    /// The first sector of that run.
    pub fn told_place(self, slot: u8) -> u64
        ensures { result ≡ told_place self slot }
    {
        match self {
            LogFormat::One => v1::place_of(slot),
            LogFormat::Two => v2::commit_place(slot),
        }
    }

    /// One more than the number of sectors that may lie between the log and home.
    pub(crate) fn gap(self) -> u64
        ensures { result ≡ gap_of self }
    {
        match self {
            LogFormat::One => v1::GAP,
            LogFormat::Two => v2::GAP,
        }
    }

    /// Whether a record's data places lack the first 8 bytes of its blocks: so they do in format 2.
    pub fn lacks_firsts(self) -> bool
        ensures { IsTrue result ↔ self ≡ LogFormat.Two }
    {
        match self {
            LogFormat::One => false,
            LogFormat::Two => true,
        }
    }

    /// Whether an image of the format can be made one of another, which is so of format 1.
    pub fn migrates(self) -> bool
        ensures { IsTrue result ↔ self ≡ LogFormat.One }
    {
        match self {
            LogFormat::One => true,
            LogFormat::Two => false,
        }
    }

    /// The version that a super has for the format.
    pub fn version(self) -> u64
        ensures { result ≡ version_of self }
    {
        match self {
            LogFormat::One => 1,
            LogFormat::Two => 2,
        }
    }

    /// The format of a super with this version, if there is one.
    pub fn of_version(version: u64) -> Option<LogFormat>
        ensures some { IfSome result (λ format. version ≡ version_of format) }
        ensures none { result ≡ None → (version ≢ 1) × (version ≢ 2) }
    {
        match version {
            1 => Some(LogFormat::One),
            2 => Some(LogFormat::Two),
            _ => None,
        }
    }
}
