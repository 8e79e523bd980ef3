//! Room for the numbers of the writes that a cut keeps.
ghost use Rattle.std.specs.Prelude.{◌≡◌, ◌≤◌, length, vec_capacity};

use std::alloc::{AllocError, Global};

/// Room for 64 numbers, so that a start alone takes memory while lives are played.
#[derive(Drop)]
pub(crate) struct NumberRoom {
    pub(crate) numbers: Vec<u32>,
    ghost room: { 64 ≤ vec_capacity numbers },
}

impl NumberRoom {
    pub(crate) fn new(alloc: Global) -> Result<NumberRoom, AllocError> {
        Ok(NumberRoom {
            numbers: Vec::with_capacity(alloc, 64)?,
        })
    }

    /// Puts numbers in place of those that were there.
    pub(crate) fn fill(&mut self, these: &[u32])
        requires { length these.now ≤ 64 }
        ensures { self.new.numbers.items ≡ these.now }
    {
        self.numbers.clear();
        for number in these {
            self.numbers.push_reserved(*number);
        }
    }
}
