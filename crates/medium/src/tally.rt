//! How many calls of each kind there were, as proofs count them.
ghost use Rattle.std.specs.Prelude.{◌≡◌};
ghost use Rattle.medium.specs.Tally.{none, one_more};
ghost use Rattle.medium.specs.SimView.{tally_of};

use crate::count::Count;
use crate::fault::MediumFault;

#[derive(Drop)]
pub(crate) struct Calls {
    pub reads: Count,
    pub writes: Count,
    pub flushes: Count,
}

impl Calls {
    pub(crate) fn new() -> Calls
        ensures { tally_of result ≡ none }
    {
        Calls {
            reads: Count::new(),
            writes: Count::new(),
            flushes: Count::new(),
        }
    }

    /// Counts one of this kind.
    pub(crate) fn add(&mut self, kind: MediumFault)
        ensures { tally_of self.new ≡ one_more (tally_of self.old) kind }
    {
        match kind {
            MediumFault::Read => self.reads = self.reads.next(),
            MediumFault::Write => self.writes = self.writes.next(),
            MediumFault::Flush => self.flushes = self.flushes.next(),
        }
    }

    /// The same counts.
    pub(crate) fn copy(&self) -> Calls
        ensures { tally_of result ≡ tally_of self.now }
    {
        Calls {
            reads: self.reads.copy(),
            writes: self.writes.copy(),
            flushes: self.flushes.copy(),
        }
    }
}
