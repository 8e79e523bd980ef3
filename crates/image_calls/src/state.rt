//! What the work on an image is at.
use crate::image_asked::ImageCall;

/// What the work on an image is at.
#[derive(Clone, Copy, Debug, PartialEq, Eq)]
pub enum ImageState {
    /// The device has not carried out all.
    Working,
    /// It has: the image is there.
    Done,
    /// It refused such a call, and is asked for nothing more.
    Refused(ImageCall),
}
