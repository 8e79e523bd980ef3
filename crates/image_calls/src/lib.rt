//! What is done to an image by calls of its device. Before it is served: a recovery, in runs of
//! neighbouring sectors, and a read of its first sectors, from sector 0 on. And the work on it: a
//! format, a part at a time, a log that is laid, or a migration, whose calls its device is told one
//! by one.
#![tactic(auto)]

mod asked;
mod asking;
mod carried;
mod device;
mod going;
mod hearing;
mod holding;
mod image_asked;
mod image_fault;
mod image_plan;
mod laws;
mod machine;
mod making;
mod near;
mod opening;
mod part;
mod plan;
mod reach;
mod read_end;
mod recovering;
mod room;
mod run;
mod running;
mod state;
mod stepping;
mod told;
mod work;

pub use asked::Asked;
pub use carried::Carried;
pub use image_asked::{ImageAsked, ImageCall};
pub use image_fault::ImageFault;
pub use image_plan::ImagePlan;
pub use laws::work_laws;
pub use machine::ImageMachine;
pub use opening::Opening;
pub use part::PART;
pub use plan::{Aim, HomePlan, LogPlan, Plan};
pub use reach::Reach;
pub use read_end::ReadEnd;
pub use recovering::Recovering;
pub use run::Run;
pub use running::Running;
pub use state::ImageState;
pub use work::Work;
