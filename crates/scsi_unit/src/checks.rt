//! The checks of a command, and what it is about to move.
ghost use Rattle.std.specs.Prelude.{◌≡◌, ◌≤◌, ◌*◌, ℕ, List, unwrap_or, IfOk};
ghost use Rattle.blocks.specs.StoreValue.{blocks_of, is_dead};
ghost use Rattle.scsi_commands.specs.Supported.{IsSupported};
ghost use Rattle.scsi.specs.Inquiry.{inquiry_size};
ghost use Rattle.scsi.specs.Rules.{passes_attention, needs_medium, sends, takes, moves};
ghost use Rattle.scsi_unit.specs.UnitValue.{unit_limit};
ghost use Rattle.scsi_unit.specs.Calls.{calls_after, most_calls};
ghost use Rattle.scsi_unit.specs.Serving.{command_for};

use crate::{Intent, Unit};
use medium::Medium;
use scsi_commands::{Command, Identity, Sense, operation_code, parse};

/// The bytes of a logical block.
pub const BLOCK: u32 = 512;

/// The operation code of REQUEST SENSE.
const REQUEST_SENSE: u8 = 0x03;

/// The operation code of INQUIRY.
const INQUIRY: u8 = 0x12;

/// The bytes of sense data.
const SENSE_DATA: u32 = 18;

/// The bytes of mode data.
const MODE_DATA: u32 = 24;

/// The bytes of the data of READ CAPACITY (10).
const CAPACITY_10: u32 = 8;

/// The bytes of the data of READ CAPACITY (16).
const CAPACITY_16: u32 = 32;

// Whether a command is carried out while a unit attention is pending.
fn passes_attention(code: u8) -> bool
    ensures { result ≡ passes_attention code }
{
    code == INQUIRY || code == REQUEST_SENSE
}

/// Whether a faulted unit refuses a command.
pub(crate) fn needs_medium(command: &Command) -> bool
    ensures { result ≡ needs_medium command.now }
{
    match command {
        Command::RequestSense { .. } | Command::Inquiry { .. } | Command::ModeSense { .. } => false,
        _ => true,
    }
}

impl<M: Medium> Unit<M> {
    /// The command of a command block, or the sense with which it is refused.
    ///
    /// # Errors
    ///
    /// The sense of the first check that the block does not pass. It is not kept.
    #[tactic(auto, unfolding(scsi::specs::Rules::command_by))]
    pub fn command(&self, block: &[u8]) -> Result<Command, Sense>
        ensures value { result ≡ command_for self.now block.now }
        ensures supported { IfOk result
            (IsSupported (blocks_of self.now.store.cached) (unit_limit self.now)) }
        ensures few { (taken : List ℕ) → calls_after result taken self.now.write_cache
            self.now.store.cached ≤ most_calls self.now }
    {
        // The store says here how many steps it has left at most.
        let _ = self.store.medium();
        if self.kept.attention() && !passes_attention(operation_code(block)) {
            return Err(Sense::POWER_ON_OR_RESET_OCCURRED);
        }
        let command = parse(block, self.store.blocks(), self.store.limit())?;
        if self.store.is_dead() && needs_medium(&command) {
            return Err(Sense::INTERNAL_TARGET_FAILURE);
        }
        Ok(command)
    }
}

// `bytes` bytes to the initiator.
fn sends(bytes: u32) -> Intent
    ensures { result ≡ sends bytes }
{
    match bytes {
        0 => Intent::None,
        bytes => Intent::In(bytes),
    }
}

// `bytes` bytes from the initiator.
fn takes(bytes: u32) -> Intent
    ensures { result ≡ takes bytes }
{
    match bytes {
        0 => Intent::None,
        bytes => Intent::Out(bytes),
    }
}

// The number of bytes of INQUIRY data, if there is such a page. It is the same whatever the limit.
fn inquiry_size(identity: &Identity, page: Option<u8>) -> u32
    ensures is { result ≡ unwrap_or (inquiry_size page) 0 }
    ensures most { result ≤ 64 }
{
    let mut data = [0; 64];
    match identity.inquiry(page, 0, &mut data) {
        Some(size) => size as u32,
        None => 0,
    }
}

/// What a command is about to move.
pub(crate) fn moves(identity: &Identity, command: &Command) -> Intent
    requires { (n : ℕ) × (limit : ℕ) × (limit ≤ 240) × IsSupported n limit command.now }
    ensures { result ≡ moves command.now }
{
    match command {
        Command::TestUnitReady | Command::SynchronizeCache10(_) | Command::SynchronizeCache16(_) =>
            Intent::None,
        Command::RequestSense { allocation } => sends(u32::from(*allocation).min(SENSE_DATA)),
        Command::Inquiry { page, allocation } => {
            sends(u32::from(*allocation).min(inquiry_size(identity, *page)))
        }
        Command::ModeSelect { length } => takes(u32::from(*length)),
        Command::ModeSense { allocation, .. } => sends(u32::from(*allocation).min(MODE_DATA)),
        Command::ReadCapacity10 => sends(CAPACITY_10),
        Command::ReadCapacity16 { allocation } => sends((*allocation).min(CAPACITY_16)),
        Command::Read10(transfer) | Command::Read16(transfer) => sends(BLOCK * transfer.count),
        Command::Write10(transfer) | Command::Write16(transfer) => takes(BLOCK * transfer.count),
    }
}
