//! A medium whose calls wait for the device, and what is left to do.
use crate::plan::Plan;
use window::WindowMedium;

/// A medium whose calls wait for the device, and what is left of the making of its image.
#[derive(Drop)]
pub struct Work {
    pub medium: WindowMedium,
    pub left: Option<Plan>,
}
