//! What the log says of a record beside the bytes in its data places.
use arrayvec::ArrayVec;

/// The blocks of a record, as its first sectors name them.
#[derive(Drop)]
pub struct Record {
    /// Their numbers, strictly rising.
    pub numbers: ArrayVec<u64, 240>,
    /// In format 2 the first 8 bytes of each, which its data place does not have; in format 1 none.
    pub firsts: ArrayVec<[u8; 8], 240>,
}

impl Record {
    ghost use Rattle.std.specs.Prelude.{◌≡◌, ◌≤◌, ◌+◌, ◌++◌, [], length, get_or};

    /// A record of no block.
    pub fn new() -> Self
        ensures numbers { result.numbers.items ≡ [] }
        ensures firsts { result.firsts.items ≡ [] }
    {
        Record {
            numbers: ArrayVec::new(),
            firsts: ArrayVec::new(),
        }
    }

    /// Makes it a record of no block.
    pub(crate) fn clear(&mut self)
        ensures numbers { self.new.numbers.items ≡ [] }
        ensures firsts { self.new.firsts.items ≡ [] }
    {
        self.numbers.clear();
        self.firsts.clear();
    }

    /// Writes these numbers and first bytes of blocks behind those that it has.
    pub(crate) fn append(&mut self, numbers: &[u64], firsts: &[[u8; 8]])
        requires numbers_fit { length self.old.numbers.items + length numbers.now ≤ 240 }
        requires firsts_fit { length self.old.firsts.items + length firsts.now ≤ 240 }
        ensures numbers { self.new.numbers.items ≡ self.old.numbers.items ++ numbers.now }
        ensures firsts { self.new.firsts.items ≡ self.old.firsts.items ++ firsts.now }
    {
        let _ = self.numbers.try_extend_from_slice(numbers);
        let _ = self.firsts.try_extend_from_slice(firsts);
    }

    /// The first bytes of the i-th block, where its data place does not have them.
    pub fn first(&self, i: usize) -> &[u8]
        ensures is { result.now ≡ get_or self.now.firsts.items i [] }
        ensures few { length result.now ≤ 8 }
    {
        if i < self.firsts.len() {
            &self.firsts[i]
        } else {
            &[]
        }
    }
}
