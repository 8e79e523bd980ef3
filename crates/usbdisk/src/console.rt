//! What the programs share: which of them is asked for, their words, the numbers in them, the
//! standard streams, the writing of answers, how a refused file or start is told, and which calls a
//! file was asked.

mod ended;
mod fault;
mod left;
mod migration;
mod number;
mod output;
mod program;
mod refusal;
mod streams;
mod words;

pub use ended::{Ended, Stopped};
pub use left::{LeftFile, LockedFile, foresee};
pub use migration::migration_line;
pub use number::read_number;
pub use output::write_out;
pub use program::{Program, take_program};
pub use refusal::Refusal;
pub use streams::{StreamGuard, guard_streams};
pub use words::{ArgumentFault, arguments, is_file_word, words_of};
