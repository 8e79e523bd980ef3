//! The bytes of the blocks of the records of a log that keeps them.
ghost use Rattle.std.specs.Prelude.{◌≡◌, ◌≤◌, ◌<◌, ◌+◌, ◌*◌, ◌++◌, [], length, drop, get_or, true};
ghost use Rattle.std.specs.Prelude.{IfOk, vec_capacity, if◌then◌else◌};
ghost use Rattle.redo_log.specs.Copies.{HaveRoom, record_in};

use std::alloc::{AllocError, Global};
use std::collections::VecDeque;
use std::marker::Model;

// Memory for those of a record, and how many of its first bytes are theirs. It never grows.
#[derive(Drop)]
pub(crate) struct Memory {
    bytes: Vec<u8>,
    length: usize,
}

/// Those of each record, the oldest first. No call but `new` takes memory.
#[derive(Drop)]
pub(crate) struct Copies {
    keeps: bool,
    kept: VecDeque<Memory>,
    // The memory that no record has now.
    spare: Vec<Memory>,
    // How many bytes of a record there is room for.
    most: usize,
}

impl Model for Copies {
    ghost use Rattle.redo_log.specs.Copies.{CopiesValue};

    ghost Value = { CopiesValue };

    ghost use Rattle.redo_log.specs.Copies.{copies_of, HasMemory};

    ghost view = { copies_of };

    ghost invariant = { HasMemory };
}

impl Copies {
    ghost use Rattle.redo_log.specs.Copies.{HasPlace, with_kept};
    ghost use Rattle.redo_log.specs.Value.{copy_kept};

    /// None yet, with room for so many bytes of each of `count` records, where they are kept at
    /// all.
    pub(crate) fn new(
        alloc: Global,
        keeps: bool,
        count: usize,
        most: usize,
    ) -> Result<Copies, AllocError>
        ensures { IfOk result (λ copies. copies ≡ record {
          keeps = keeps;
          ring = if keeps then count else 0;
          most = most;
          kept = [];
        }) }
    {
        let ring = if keeps { count } else { 0 };
        Ok(Copies {
            keeps,
            kept: VecDeque::with_capacity(alloc, ring)?,
            spare: spare_for(alloc, ring, most)?,
            most,
        })
    }

    /// Whether any are kept.
    pub(crate) fn are_kept(&self) -> bool
        ensures { result ≡ self.now.keeps }
    {
        self.keeps
    }

    /// Keeps those of one more record behind the others.
    pub(crate) fn keep(&mut self, bytes: &[u8])
        requires { self.old.keeps ≡ true → HasPlace bytes.now self.old }
        ensures { self.new ≡ with_kept bytes.now self.old }
    {
        if !self.keeps {
            return;
        }
        let Some(mut memory) = self.spare.pop() else {
            unreachable!()
        };
        fill(&mut memory, bytes);
        self.kept.push_back_reserved(memory);
    }

    /// Forgets those of the oldest record, if there are any.
    pub(crate) fn forget(&mut self)
        ensures { self.new ≡ record self.old { kept = drop 1 self.old.kept } }
    {
        if let Some(memory) = self.kept.pop_front() {
            self.spare.push_reserved(memory);
        }
    }

    /// The block in this place of the record of this age.
    pub(crate) fn block(&self, age: usize, place: usize) -> &[u8; 512]
        requires { (place < 240) × (512 * place + 512 ≤ length (get_or self.now.kept age [])) }
        ensures { result.now ≡ copy_kept self.now.kept age place }
    {
        let at = 512 * place;
        let Some(block) = self.kept[age].bytes[at..].first_chunk::<512>() else {
            unreachable!()
        };
        block
    }
}

// Copies these bytes to memory that has room for them.
fn fill(memory: &mut Memory, bytes: &[u8])
    requires { length bytes.now ≤ length memory.old.bytes.items }
    ensures copied { record_in memory.new ≡ bytes.now }
    ensures room { length memory.new.bytes.items ≡ length memory.old.bytes.items }
{
    put(&mut memory.bytes, bytes);
    memory.length = bytes.len();
}

// Copies bytes over the front of others.
fn put(to: &mut [u8], from: &[u8])
    requires { length from.now ≤ length to.old }
    ensures { to.new ≡ from.now ++ drop (length from.now) to.old }
{
    to[..from.len()].copy_from_slice(from);
}

// Memory for so many bytes of each of `count` records.
fn spare_for(alloc: Global, count: usize, most: usize) -> Result<Vec<Memory>, AllocError>
    ensures room { IfOk result (λ spare. HaveRoom most spare.items) }
    ensures many { IfOk result (λ spare. (length spare.items ≡ count)
        × (count ≤ vec_capacity spare)) }
{
    let mut spare = Vec::with_capacity(alloc, count)?;
    for _ in 0..count {
        let bytes = vec![in alloc; 0u8; most]?;
        spare.push_reserved(Memory { bytes, length: 0 });
    }
    Ok(spare)
}
