//! Format 2: up to 8 descriptors, up to 240 data places and a commit, with one flush behind them.
mod commit;
mod data;
mod descriptor;
mod naming;
mod places;
mod record;

pub use commit::Commit;
pub(crate) use data::put_stamp;
pub use data::{data_sector, is_data};
pub use descriptor::Descriptor;
pub(crate) use descriptor::firsts_in;
pub(crate) use naming::{are_blocks, count_of, descriptor_of};
pub(crate) use places::{COMMIT, ENTRIES, FIRST_DATA, GAP, LIMIT, SLOT_SECTORS};
pub use places::{commit_place, data_place, descriptor_place, place_of};
pub use record::descriptors;
pub(crate) use record::{before_barrier, parts, write_part};
