//! The rules of the logical unit, by SPC-4 and SBC-3: the plain types that they speak of, and in
//! specs/ the definitions, in the order of `specs/Lib.antt`. Nothing is carried out here.
#![tactic(auto)]

mod command;
mod intent;
mod sense_key;

pub use command::{BlockRange, Command, Transfer};
pub use intent::Intent;
pub use sense_key::SenseKey;
