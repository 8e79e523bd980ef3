//! The block numbers of the record under way, for proofs alone: they take no memory, since the
//! caller has them.
ghost use Rattle.std.specs.Prelude.{◌≡◌, ℕ, List};
ghost use Rattle.std.specs.Borrow.{ftrue};

use std::marker::Model;

#[derive(Drop)]
pub(crate) struct BegunNumbers {
    pub ghost numbers: { List ℕ },
}

impl Model for BegunNumbers {
    ghost also_owns = { λ _. ftrue };
}

impl BegunNumbers {
    /// These ones.
    pub(crate) fn of(_numbers: &[u64]) -> BegunNumbers
        ensures { result.numbers ≡ _numbers.now }
    {
        BegunNumbers {}
    }
}
