//! What follows from the definitions of a log alone, whatever carries them out: of every order of
//! writes and flushes, and of a ring of records.
#![tactic(auto)]

mod orders;
mod premises;

pub use orders::{log_laws, order_laws};
pub use premises::premise_laws;
