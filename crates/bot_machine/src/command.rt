//! Command block wrappers.
ghost use Rattle.std.specs.Prelude.{◌≡◌, ◌↔◌, ◌<◌, ◌≤◌, ◌%◌, IsTrue, MatchResult, IfOk, OnErr};
ghost use Rattle.std.specs.Prelude.{length, take};
ghost use Rattle.spec.specs.CommandWrapper.{command_signature, Announces, IsMeaningful};
ghost use Rattle.spec.specs.CommandWrapper.{SpellsCommand, SpellsNone};
ghost use Rattle.bot_machine.specs.Command.{HasFault};

use arrayvec::ArrayVec;
use byteorder::{ByteOrder, LittleEndian};
use spec::{Cbw, Way};
use thiserror::Error;

/// Why a packet is no valid and meaningful command block wrapper (Bulk-Only Transport 1.0, 6.2).
#[derive(Clone, Copy, Debug, PartialEq, Eq, Error)]
pub enum CbwFault {
    #[error("a command block wrapper has 31 bytes")]
    Length = 1,
    #[error("the signature is not that of a command block wrapper")]
    Signature = 2,
    #[error("a field of the command block wrapper is not meaningful")]
    NotMeaningful = 3,
}

/// The flags where the bytes go to the host. All other bits of them are reserved.
const DIRECTION_IN: u8 = 0x80;

// What the host announces by a transfer length and the flags.
fn announced(length: u32, flags: u8) -> Way
    ensures { Announces length flags result }
{
    if length == 0 {
        Way::Nothing
    } else if flags >= DIRECTION_IN {
        Way::In(length)
    } else {
        Way::Out(length)
    }
}

// Whether the packet begins with the signature.
fn is_signed(packet: &[u8]) -> bool
    ensures { IsTrue result ↔ (take 4 packet.now ≡ command_signature) }
{
    packet.starts_with(b"USBC")
}

// Whether the flags have no reserved bit.
fn is_direction(flags: u8) -> bool
    ensures { IsTrue result ↔ (flags % 128 ≡ 0) }
{
    matches!(flags, 0 | DIRECTION_IN)
}

// Whether a command block may have `length` bytes.
fn is_block_length(length: u8) -> bool
    ensures { IsTrue result ↔ ((0 < length) × (length ≤ 16)) }
{
    matches!(length, 1..=16)
}

// Whether the fields are meaningful: no reserved flag, unit 0, a command block of 1 to 16 bytes.
fn is_meaningful(packet: &[u8]) -> bool
    requires { length packet.now ≡ 31 }
    ensures { IsTrue result ↔ IsMeaningful packet.now }
{
    is_direction(packet[12]) && packet[13] == 0 && is_block_length(packet[14])
}

/// Reads a command block wrapper (Bulk-Only Transport 1.0, 5.1 and 6.2). The bytes past the command
/// block's length are ignored.
///
/// # Errors
///
/// `Length` for a packet of another length than 31 bytes; then `Signature`; then `NotMeaningful`.
pub fn read_cbw(packet: &[u8]) -> Result<Cbw, CbwFault>
    ensures exact { MatchResult result (SpellsCommand packet.now) (HasFault packet.now) }
    ensures only { IfOk result (λ wrapper.
        (other : Cbw) → SpellsCommand packet.now other → other ≡ wrapper) }
    ensures refused { OnErr result (SpellsNone packet.now) }
{
    if packet.len() != 31 {
        return Err(CbwFault::Length);
    }
    if !is_signed(packet) {
        return Err(CbwFault::Signature);
    }
    if !is_meaningful(packet) {
        return Err(CbwFault::NotMeaningful);
    }
    let block_end = 15 + packet[14] as usize;
    Ok(Cbw {
        tag: LittleEndian::read_u32(&packet[4..]),
        host: announced(LittleEndian::read_u32(&packet[8..]), packet[12]),
        block: ArrayVec::try_from(&packet[15..block_end]).unwrap(),
    })
}
