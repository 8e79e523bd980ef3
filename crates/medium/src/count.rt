//! A number that only proofs read.
ghost use Rattle.std.specs.Prelude.{◌≡◌, ◌+◌, ℕ};
ghost use Rattle.std.specs.Borrow.{ftrue};

use std::marker::Model;

// It takes no memory, and its functions do nothing at run time. This crate alone can move one.
#[derive(Drop)]
pub(crate) struct Count {
    pub ghost number: { ℕ },
}

impl Model for Count {
    ghost also_owns = { λ _. ftrue };
}

// How a number comes about.
#[derive(Drop)]
enum Counting<'a> {
    Zero,
    Next(&'a Count),
    Copy(&'a Count),
}

impl Count {
    ghost use Rattle.medium.specs.Counting.{counted};

    pub(crate) fn new() -> Count
        ensures { result.number ≡ 0 }
    {
        Count::of(&Counting::Zero)
    }

    /// One more.
    pub(crate) fn next(&self) -> Count
        ensures { result.number ≡ self.now.number + 1 }
    {
        Count::of(&Counting::Next(self))
    }

    /// The same number.
    pub(crate) fn copy(&self) -> Count
        ensures { result.number ≡ self.now.number }
    {
        Count::of(&Counting::Copy(self))
    }

    // The number that comes about so.
    fn of(_counting: &Counting) -> Count
        ensures { result.number ≡ counted _counting.now }
    {
        Count {}
    }
}
