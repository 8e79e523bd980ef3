//! The records of the redo log, in both formats, on a medium that may lose power at any moment.
//!
//! At each moment of each call every image that a loss of power may leave has the durable records
//! whole, perhaps with the record under way, whole too, and stands for the blocks that these make.
//! Each slot has one record at most. Durable ones wait there until they are retired, the oldest
//! alone, and one may be under way behind them.
#![tactic(auto)]

mod ahead;
mod begun;
mod call;
mod copies;
mod fault;
mod firsts;
mod index;
mod log;
mod making;
mod oldest;
mod progress;
mod room;
mod stop;
mod under_way;

pub use fault::LogFault;
pub use log::Log;
pub use progress::Progress;
