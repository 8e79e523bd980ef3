//! A store on a device that is read on demand, without any transport: what it is asked for, and
//! what its device is to do next.
//!
//! No write and no sync makes a call of the device by itself. Where something has to be written
//! before, steps are made that write it, each while few calls wait, and the same call is to come
//! again: so the outbox has room for few calls.
#![tactic(auto)]

mod background;
mod device;
mod holding;
mod lack;
mod laws;
mod machine;
mod machine_behind;
mod outbox;
mod reading;
mod recovered_device;
mod refused;
mod resting;
mod room;
mod run;
mod sizes;
mod store_fault;
mod supers;
mod told;
mod transfers;
mod writing;
mod writing_back;

pub use blocks::StartFault;
pub use holding::device_holding;
pub use lack::Lack;
pub use laws::store_laws;
pub use machine::StoreMachine;
pub use machine_behind::{begin_behind, medium_behind};
pub use recovered_device::RecoveredDevice;
pub use sizes::Sizes;
pub use store_fault::StoreFault;
pub use supers::{span_of, super_of};
