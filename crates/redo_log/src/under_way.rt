//! The calls of the record under way, one after the other.
ghost use Rattle.std.specs.Prelude.{◌≡◌, ◌<◌, ◌≤◌, ◌+◌, ◌*◌, ◌++◌, ◌∷◌, [], length, IfSome};
ghost use Rattle.std.specs.VecDeque.{deque_len, deque_capacity};
ghost use Rattle.journal.specs.Record.{entries_of};
ghost use Rattle.redo_log.specs.Shown.{lists_of};
ghost use Rattle.redo_log.specs.Value.{IsStepped};
ghost use Rattle.redo_log.specs.Steps.{CanStep, StepCalled};
ghost use Rattle.redo_log.specs.Halfway.{TellsStep, IsNextData};

use crate::begun::BegunNumbers;
use crate::call::{is_stamped, next_call};
use crate::index::enter_record;
use crate::log::Numbers;
use crate::making::{make, write, write_stamped};
use crate::{Log, Progress};
use journal::{NewRecord, copy_place, parts, slot_of};
use medium::{Call, Medium, MediumFault};
use std::collections::VecDeque;

impl Log {
    /// The next call of the record under way, and in the sector what it writes. It is not made, and
    /// not counted yet: `step_made` counts it, and `stop` gives the log up where it was refused.
    pub fn next_step<M: Medium>(
        &self,
        numbers: &[u64],
        bytes: &[u8],
        sector: &mut [u8; 512],
    ) -> Call
        requires under_way { 0 < self.now.steps_left }
        requires numbers { numbers.now ≡ self.now.under_way }
        requires bytes { length bytes.now ≡ 512 * length numbers.now }
        ensures { TellsStep M.state (entries_of numbers.now bytes.now) self.now result sector.new }
    {
        let Some(made) = self.made else {
            unreachable!()
        };
        let stamp = self.head + self.waiting.len() as u64;
        let batch = NewRecord {
            stamp,
            numbers,
            bytes,
        };
        next_call(&self.sizes, &batch, made, sector)
    }

    /// Makes the next call of the record under way, which is not counted yet. The block of a data
    /// place is copied once at most on its way there, and no sector is cleared for it.
    #[inline]
    pub(crate) fn make_step<M: Medium>(
        &self,
        m: &mut M,
        numbers: &[u64],
        bytes: &[u8],
    ) -> Result<(), MediumFault>
        requires { CanStep self.now numbers.now bytes.now (M.state m.old) }
        ensures { M.follows m.old m.new × StepCalled (entries_of numbers.now bytes.now) result
            self.now (M.state m.old) (M.state m.new) }
    {
        let Some((place, i)) = self.next_data(numbers.len()) else {
            let mut sector = [0; 512];
            let call = self.next_step::<M>(numbers, bytes, &mut sector);
            return make(m, call, &mut sector);
        };
        let Some(block) = bytes[512 * i..].first_chunk::<512>() else {
            unreachable!()
        };
        if is_stamped(self.sizes.format) {
            return write_stamped(m, place, self.stamp(), block);
        }
        write(m, place, block)
    }

    // The stamp of the record under way.
    fn stamp(&self) -> u64
        ensures { result ≡ self.now.head + length self.now.waiting }
    {
        self.head + self.waiting.len() as u64
    }

    // The data place that comes next of the record under way, which has so many blocks, and which
    // of these goes there, where a data place comes next.
    #[inline]
    fn next_data(&self, count: usize) -> Option<(u64, usize)>
        requires { (0 < self.now.steps_left) × (count ≡ length self.now.under_way) }
        ensures { IfSome result (λ next. IsNextData self.now count next.0 next.1) }
    {
        let Some(made) = self.made else {
            return None;
        };
        let first = parts(self.sizes.format, count) - count - 1;
        if made < first || first + count <= made {
            return None;
        }
        let slot = slot_of(self.stamp(), self.sizes.slots);
        Some((
            copy_place(self.sizes.format, slot, made - first),
            made - first,
        ))
    }

    /// Counts a call of the record under way, which is durable with its last one.
    pub fn step_made(&mut self, numbers: &[u64]) -> Progress
        requires { (0 < self.old.steps_left) × (numbers.now ≡ self.old.under_way) }
        ensures { IsStepped result self.old self.new }
    {
        let Some(made) = self.made else {
            unreachable!()
        };
        // (a record has more steps than blocks: they are not counted for each of these)
        let (format, count) = (self.sizes.format, numbers.len());
        if made < count || made + 1 < parts(format, count) + format.flushes() {
            self.made = Some(made + 1);
            return Progress::More;
        }
        self.made = None;
        let stamp = self.head + self.waiting.len() as u64;
        enter_record(&mut self.index, slot_of(stamp, self.sizes.slots), numbers);
        keep_numbers(&mut self.waiting, numbers);
        self.under_way = BegunNumbers::of(&[]);
        Progress::Durable
    }
}

// Keeps these numbers behind the others. They are written into their place, since the stack has no
// room for a copy of them under a call of the medium.
#[inline(never)]
fn keep_numbers(waiting: &mut VecDeque<Numbers>, numbers: &[u64])
    requires few { length numbers.now ≤ 240 }
    requires room { deque_len waiting.old < deque_capacity waiting.old }
    ensures keeps { lists_of waiting.new.items ≡ lists_of waiting.old.items ++ numbers.now ∷ [] }
    ensures capacity { deque_capacity waiting.new ≡ deque_capacity waiting.old }
{
    let place = waiting.len();
    waiting.push_back_reserved(Numbers::new());
    let _ = waiting[place].try_extend_from_slice(numbers);
}
