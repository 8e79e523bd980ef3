//! The batches of a write cache: bounded maps from logical block addresses to blocks of 512 bytes.
//! A batch takes blocks as they come; a frozen one has them in the order of their numbers. Their
//! room is made once; no later call takes memory.
#![tactic(auto)]

mod append;
mod arrange;
mod batch;
mod batch_error;
mod counter;
mod entry;
mod frozen;
mod index;
mod parts;
mod place;
mod searches;

pub use batch::Batch;
pub use batch_error::BatchError;
pub use counter::Steps;
pub use entry::BLOCK;
pub use frozen::Frozen;
pub use searches::{search_among_48, search_among_none};
