//! The standard streams that were closed at the start.
use std::fs;
use std::fs::Files;

// What a reader finds empty, and what takes no byte from a handle that only reads.
const NULL_DEVICE: &str = "/dev/null";

/// Three handles of the null device.
///
/// The system gives a file that is opened the lowest free descriptor, and 0, 1 and 2 are the
/// standard streams. Where some of them were closed at the start, these handles take their places:
/// so a file that is opened while they are held is never written to as an output.
#[derive(Drop)]
pub struct StreamGuard<F> {
    first: F,
    second: F,
    third: F,
}

/// Takes the places of those standard streams that were closed at the start. Such an input is then
/// empty, and such an output takes nothing. `None` where the null device was not opened.
pub fn guard_streams<R: Files>(rt: &R) -> Option<StreamGuard<R::File>> {
    Some(StreamGuard {
        first: open_null(rt)?,
        second: open_null(rt)?,
        third: open_null(rt)?,
    })
}

// The null device, for reading.
fn open_null<R: Files>(rt: &R) -> Option<R::File> {
    fs::open(rt, NULL_DEVICE).ok()
}
