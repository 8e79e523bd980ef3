//! Numbers, as scripts and command lines spell them.
ghost use Rattle.std.specs.Prelude.{ℕ, ◌≡◌, ◌≢◌, ◌<◌, ◌≤◌, ◌^◌, ◌↔◌, IsTrue, IfSome, IfNone};
ghost use Rattle.std.specs.Prelude.{decimal, length, slice_index};
ghost use Rattle.usbdisk.specs.console.Numbers.{SpellsNumber};

use std::str;

/// Reads a number from `least` to `most`, both among them, in decimal digits without leading zeros.
/// `None` where the text is anything else.
pub fn read_number(text: &[u8], least: u64, most: u64) -> Option<u64>
    ensures spelled { IfSome result (SpellsNumber least most text.now) }
    ensures refused { IfNone result ((number : ℕ) → SpellsNumber least most text.now number → ⊥) }
{
    let number = read_decimal(text)?;
    if number < least || number > most {
        return None;
    }
    Some(number)
}

// Reads any number that fits the type.
fn read_decimal(text: &[u8]) -> Option<u64>
    ensures spelled { IfSome result (λ number. text.now ≡ decimal number) }
    ensures refused { IfNone result ((number : ℕ) → number < 2 ^ 64 → text.now ≢ decimal number) }
{
    if !has_plain_start(text) {
        return None;
    }
    let Ok(digits) = str::from_utf8(text) else {
        return None;
    };
    match digits.parse::<u64>() {
        Ok(number) => Some(number),
        Err(_) => None,
    }
}

// Whether no sign comes first, and no zero but in `0` itself.
fn has_plain_start(text: &[u8]) -> bool
    ensures { IsTrue result ↔ ((slice_index text.now 0 ≢ 43)
        × (slice_index text.now 0 ≡ 48 → length text.now ≤ 1)) }
{
    match text {
        [b'+', ..] => false,
        [b'0', _, ..] => false,
        _ => true,
    }
}
