//! How a command descriptor block is decoded.
ghost use Rattle.std.specs.Prelude.{◌≡◌, ◌≤◌, ◌++◌, ℕ, List, IfErr, IfOk, length};
ghost use Rattle.scsi.specs.declared.command.Command.{Command};
ghost use Rattle.scsi_commands.specs.Supported.{IsRefusal, IsSupported, command_size};
ghost use Rattle.scsi.specs.Commands.{byte_at, command_of};
ghost use Rattle.scsi_commands.specs.Written.{FitsFields, block_of};

use crate::blocks::{
    read_capacity_10, read_capacity_16, synchronize_10, synchronize_16, transfer_10, transfer_16,
};
use crate::codes::Sense;
use crate::device::{inquiry, mode_select, mode_sense, request_sense, test_unit_ready};
use scsi::Command;

/// The command in a command descriptor block, or the sense with which it is refused: for a medium
/// of `n` blocks, and transfers of at most `limit` blocks.
///
/// Bytes past the command's are ignored, and no command is empty.
///
/// # Errors
///
/// The first of these that applies: the operation code is unknown (5/20/00); the block is shorter
/// than the command, the control byte is not 0, or byte 1 has a bit that is not supported
/// (5/24/00); then what is wrong with the other fields, in their order: 5/24/00, 5/1A/00 for the
/// length of a parameter list, 5/39/00 for saved mode pages, and 5/21/00 for blocks past the end of
/// the medium.
pub fn parse(block: &[u8], n: u64, limit: u32) -> Result<Command, Sense>
    ensures value { result ≡ command_of n limit block.now }

    // An accepted command may be carried out as it stands, and a refusal is one of five.
    ensures supported { IfOk result (IsSupported n limit) }
    ensures refusal { IfErr result IsRefusal }

    // What an initiator writes is accepted, and what follows the command does not matter.
    ensures written { (command : Command) → IsSupported n limit command → FitsFields command
        → block.now ≡ block_of command → result ≡ Ok command }
    ensures past { (more : List ℕ) → command_size (byte_at 0 block.now) ≤ length block.now
        → command_of n limit (block.now ++ more) ≡ result }
{
    by_operation_code(block, n, limit)
}

/// The operation code of a command block: its first byte. In a block of no bytes it counts as 0,
/// the code of a command that the block is too short for.
pub fn operation_code(block: &[u8]) -> u8
    ensures { result ≡ byte_at 0 block.now }
{
    match block.first() {
        Some(&code) => code,
        None => 0,
    }
}

// The command by its operation code.
#[tactic(auto, using(crate::proofs::Judged::judging), unfolding(scsi::specs::Commands::command_of))]
fn by_operation_code(block: &[u8], n: u64, limit: u32) -> Result<Command, Sense>
    ensures { result ≡ command_of n limit block.now }
{
    match operation_code(block) {
        0x00 => test_unit_ready(block),
        0x03 => request_sense(block),
        0x12 => inquiry(block),
        0x15 => mode_select(block),
        0x1a => mode_sense(block),
        0x25 => read_capacity_10(block),
        0x28 => Ok(Command::Read10(transfer_10(block, n, limit)?)),
        0x2a => Ok(Command::Write10(transfer_10(block, n, limit)?)),
        0x35 => Ok(Command::SynchronizeCache10(synchronize_10(block, n)?)),
        0x88 => Ok(Command::Read16(transfer_16(block, n, limit)?)),
        0x8a => Ok(Command::Write16(transfer_16(block, n, limit)?)),
        0x91 => Ok(Command::SynchronizeCache16(synchronize_16(block, n)?)),
        0x9e => read_capacity_16(block),
        _ => Err(Sense::INVALID_COMMAND_OPERATION_CODE),
    }
}
