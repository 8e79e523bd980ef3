//! The store: logical blocks with a write cache of two batches, over a redo log on a medium.
//!
//! The active batch takes writes. The frozen one is on its way to the log and never changes on its
//! way. A read takes a block from the active batch, else from the frozen one, else its newest
//! logged copy, else from home. One record carries one batch, and a batch holds whole writes: so a
//! start after a loss of power finds the first n of the accepted writes, for some n, none in part.
#![tactic(auto)]

mod ahead;
mod background;
mod commit;
mod fault;
mod laws;
mod read;
mod stage;
mod start;
mod start_error;
mod stop;
mod store;
mod sync;
mod work;
mod write;
mod write_back;
mod write_step;

pub use fault::StoreFault;
pub use laws::{flush_laws, run_laws};
pub use recovery::{RecoveredMedium, StartFault};
pub use stage::Stage;
pub use start::Keeping;
pub use start_error::StartError;
pub use store::Store;
pub use work::Work;
