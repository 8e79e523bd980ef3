//! Why an image was not made or changed.
use recovery::StartFault;
use thiserror::Error;

#[derive(Clone, Copy, Debug, PartialEq, Eq, Error)]
pub enum ImageFault {
    /// The first sectors are none, no whole ones, or more than the device has.
    #[error("bad length")]
    Length,
    /// A size is out of its limits, or the device is too short for the sizes.
    #[error("bad sizes")]
    Sizes,
    /// There is no memory, or the image cannot be migrated.
    #[error("the image is refused")]
    Start(StartFault),
}
