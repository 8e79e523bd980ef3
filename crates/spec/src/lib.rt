//! The specification of a disk, as its host sees it: the bulk-only transport over the rules of the
//! logical unit, lives, and the promise. Here are the plain types that they speak of, and in specs/
//! the definitions that the promise of `run_lives` names, in the order of `specs/Lib.antt`.
#![tactic(auto)]

mod case;
mod event;
mod packet_size;
mod status;
mod way;
mod wrapper;

pub use case::{Case, Endpoint, Outcome};
pub use event::{Answer, Event};
pub use packet_size::PacketSize;
pub use status::Status;
pub use way::Way;
pub use wrapper::Cbw;
