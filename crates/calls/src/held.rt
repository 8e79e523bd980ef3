//! What a handle holds.
use bot_machine::{Identity, PacketSize, StartFault};
use disk_machine::DiskMachine;
use image_calls::{ImageMachine, ImagePlan, Opening, Recovering};
use store_calls::StoreMachine;

/// What a handle holds.
#[derive(Drop)]
pub enum Held {
    /// The image on a device of so many sectors is recovered, before this begins.
    Recovering(Box<Recovering>, u64, Service),
    /// The first sectors are read, before this work begins.
    Opening(Opening, ImageWork),
    /// A disk is there, and may still be starting.
    Disk(DiskMachine),
    /// A store is there, and may still be starting.
    Store(StoreMachine),
    /// The work on an image is under way, or done.
    Image(ImageMachine),
    /// There is no such disk or store, for this reason.
    Failed(Service, StartFault),
    /// There is no work on an image, for this reason.
    NoWork(StartFault),
}

/// What is started on a device that was recovered.
#[derive(Clone, Copy)]
pub enum Service {
    Disk(DiskPlan),
    /// A store, of whose log so many records lie in memory at most.
    Store(u8),
}

/// What a disk is to be.
#[derive(Clone, Copy)]
pub struct DiskPlan {
    pub(crate) identity: Identity,
    /// How many bytes a bulk packet has at most.
    pub(crate) size: PacketSize,
    /// How many records of the log lie in memory at most.
    pub(crate) kept: u8,
}

/// What is done to an image.
#[derive(Clone, Copy)]
pub enum ImageWork {
    /// An image of zeros is made.
    Format(ImagePlan),
    /// An image is made around the blocks that are there.
    LayLog(ImagePlan),
    /// An image of format 1 is made one of format 2.
    Migration,
}
