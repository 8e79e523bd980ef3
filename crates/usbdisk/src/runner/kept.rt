//! Which of the unflushed writes a cut keeps.
ghost use Rattle.std.specs.Prelude.{ℕ, List, IfSome, IfNone};
ghost use Rattle.usbdisk.specs.runner.Line.{SpellsCut, SpellsNumbers};
ghost use Rattle.usbdisk.specs.declared.runner.kept.KeptWrites.{KeptWrites};

use crate::console::read_number;
use crate::runner::parts::Parts;
use crate::runner::words::behind;
use arrayvec::ArrayVec;

// The greatest number of a write.
const LAST_WRITE: u64 = 16_383;

/// Which of the unflushed writes a cut keeps. They are numbered from 0 in order of issue.
#[derive(Drop)]
pub enum KeptWrites {
    None,
    All,
    /// At least one number.
    These(ArrayVec<u32, 64>),
}

/// Reads `cut none`, `cut all`, or `cut` and the numbers of writes.
pub(crate) fn read_cut(line: &[u8]) -> Option<KeptWrites>
    ensures spelled { IfSome result (SpellsCut line.now) }
    ensures refused { IfNone result ((kept : KeptWrites) → SpellsCut line.now kept → ⊥) }
{
    if line == b"cut none".as_slice() {
        return Some(KeptWrites::None);
    }
    if line == b"cut all".as_slice() {
        return Some(KeptWrites::All);
    }
    let numbers = read_numbers(behind(line, b"cut ")?)?;
    Some(KeptWrites::These(numbers))
}

// Reads numbers, parted by single spaces.
fn read_numbers(text: &[u8]) -> Option<ArrayVec<u32, 64>>
    ensures spelled { IfSome result (λ numbers. SpellsNumbers text.now numbers.items) }
    ensures refused { IfNone result ((numbers : List ℕ) → SpellsNumbers text.now numbers → ⊥) }
{
    let mut numbers = ArrayVec::new();
    for word in Parts::words(text) {
        let number = read_number(word, 0, LAST_WRITE)?;
        if numbers.is_full() {
            return None;
        }
        numbers.push(number as u32);
    }
    Some(numbers)
}
