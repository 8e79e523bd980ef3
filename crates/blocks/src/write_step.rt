//! A write one step at a time: a step makes two calls of the medium at most.
ghost use Rattle.std.specs.Prelude.{◌/◌, length};
ghost use Rattle.logical_blocks.specs.Book.{write_of};
ghost use Rattle.blocks.specs.Book.{IsTransfer};
ghost use Rattle.blocks.specs.StoreValue.{blocks_of, transfer_limit};
ghost use Rattle.blocks.specs.Stages.{WriteStepPost};

use crate::{Stage, Store, Work};
use cache::BLOCK;
use medium::Medium;

impl<M: Medium> Store<M> {
    /// Writes 1 to `limit` whole blocks from an address on, or makes a step towards room for them,
    /// of at most two calls of the medium. A call that puts them into a batch makes none.
    ///
    /// It answers `Waits` as long as no batch has room, then once `Accepted`. `Failed` is answered
    /// on a dead store, and where the store dies in this call: the write is not accepted then.
    pub fn write_step(&mut self, address: u64, bytes: &[u8]) -> Stage
        requires { IsTransfer (transfer_limit self.old.cached) (blocks_of self.old.cached)
            address (length bytes.now) }
        ensures { WriteStepPost M.state M.follows (write_of address bytes.now) address
            (length bytes.now / 512) result self.old self.new }
    {
        if self.is_dead() {
            return Stage::Failed;
        }
        if self.takes_at_once(address, bytes.len() / BLOCK) {
            // A live store with room accepts it.
            let _ = self.write(address, bytes);
            return Stage::Accepted;
        }
        self.work(Work::WriteBack);
        if self.is_dead() {
            return Stage::Failed;
        }
        Stage::Waits
    }
}
