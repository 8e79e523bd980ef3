//! Format 1: a descriptor, up to 48 data places and a commit, with a flush before the commit.
mod commit;
mod descriptor;
mod naming;
mod places;
mod record;
mod whole;

pub use commit::Commit;
pub use descriptor::Descriptor;
pub(crate) use naming::{describe, is_ended};
pub(crate) use places::{COMMIT, FIRST_DATA, GAP, LIMIT, SLOT_SECTORS};
pub use places::{commit_place, data_place, place_of};
pub(crate) use record::{before_barrier, parts, write_part};
pub use whole::whole_record;
