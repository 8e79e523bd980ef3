//! A line's first word, and what stands behind it.
ghost use Rattle.std.specs.Prelude.{◌≡◌, ◌≢◌, ◌≤◌, ◌++◌, ◌∷◌, [], ℕ, List, IfSome, IfNone};
ghost use Rattle.std.specs.Prelude.{MatchOption};
ghost use Rattle.hex.specs.Hex.{decode_of};
ghost use Rattle.spec.specs.Packets.{bytes_of};
ghost use Rattle.usbdisk.specs.runner.Line.{SpellsOut, SpellsPacket, SpellsFill, SpellsSetup};
ghost use Rattle.usbdisk.specs.runner.Line.{SpellsCount};

use crate::console::read_number;
use arrayvec::ArrayVec;
use bot_machine::PacketSize;

/// Reads `out` and the packet behind it, which has at most the bytes of a size.
pub(crate) fn read_out(line: &[u8], size: PacketSize) -> Option<ArrayVec<u8, 512>>
    ensures spelled { IfSome result (λ packet. SpellsOut (bytes_of size) line.now packet.items) }
    ensures refused { IfNone result ((packet : List ℕ)
        → SpellsOut (bytes_of size) line.now packet → ⊥) }
{
    if line == b"out".as_slice() {
        return Some(ArrayVec::new());
    }
    read_packet(behind(line, b"out ")?, size.bytes() as usize)
}

// The bytes of a packet that is not empty, at most `most`, from their hex digits.
fn read_packet(digits: &[u8], most: usize) -> Option<ArrayVec<u8, 512>>
    requires { most ≤ 512 }
    ensures spelled { IfSome result (λ packet. SpellsPacket most digits.now packet.items) }
    ensures refused { IfNone result ((packet : List ℕ) → SpellsPacket most digits.now packet → ⊥) }
{
    let count = digits.len() / 2;
    if count == 0 || count > most {
        return None;
    }
    let mut bytes = [0; 512];
    hex::decode_to_slice(digits, &mut bytes[..count]).ok()?;
    let mut packet = ArrayVec::new();
    packet.try_extend_from_slice(&bytes[..count]).ok()?;
    Some(packet)
}

/// Reads `fill`, a byte and how many of it.
pub(crate) fn read_fill(line: &[u8]) -> Option<(u8, u64)>
    ensures spelled { IfSome result (λ fill. SpellsFill line.now fill.0 fill.1) }
    ensures refused { IfNone result ((byte count : ℕ) → SpellsFill line.now byte count → ⊥) }
{
    let fill = behind(line, b"fill ")?;
    if fill.len() < 3 || fill[2] != b' ' {
        return None;
    }
    let byte = read_byte(&fill[..2])?;
    let count = read_number(&fill[3..], 1, 131_072)?;
    Some((byte, count))
}

// The byte of two hex digits.
fn read_byte(digits: &[u8]) -> Option<u8>
    ensures spelled { IfSome result (λ byte. decode_of digits.now ≡ Ok (byte ∷ [])) }
    ensures refused { IfNone result ((byte : ℕ) → decode_of digits.now ≢ Ok (byte ∷ [])) }
{
    let mut byte = [0];
    match hex::decode_to_slice(digits, &mut byte) {
        Ok(()) => Some(byte[0]),
        Err(_) => None,
    }
}

/// Reads `setup` and the packet behind it.
pub(crate) fn read_setup(line: &[u8]) -> Option<[u8; 8]>
    ensures spelled { IfSome result (SpellsSetup line.now) }
    ensures refused { IfNone result ((packet : List ℕ) → SpellsSetup line.now packet → ⊥) }
{
    let digits = behind(line, b"setup ")?;
    let mut packet = [0; 8];
    match hex::decode_to_slice(digits, &mut packet) {
        Ok(()) => Some(packet),
        Err(_) => None,
    }
}

/// Reads a word with its space, and a number from `least` to `most`.
pub(crate) fn read_count(line: &[u8], word: &[u8], least: u64, most: u64) -> Option<u64>
    ensures spelled { IfSome result (SpellsCount word.now least most line.now) }
    ensures refused { IfNone result ((count : ℕ)
        → SpellsCount word.now least most line.now count → ⊥) }
{
    read_number(behind(line, word)?, least, most)
}

/// What stands behind a line's first bytes, if they are these.
pub(crate) fn behind<'a>(line: &'a [u8], word: &[u8]) -> Option<&'a [u8]>
    ensures { MatchOption result ((rest : List ℕ) → line.entry.now ≢ word.now ++ rest)
        (λ rest. line.entry.now ≡ word.now ++ rest.now) }
{
    line.strip_prefix(word)
}
