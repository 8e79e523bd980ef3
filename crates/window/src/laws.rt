//! A law of the device behind an outbox.
ghost use Rattle.window.specs.Parts.{PartsFollow};

/// Does nothing. What `waiting` says of first parts of what was sent holds of any part: a device
/// that loses power while it carries out writes may have lost any of those behind the last flush,
/// or have carried them out in any order.
pub fn device_laws()
    ensures { PartsFollow }
{}
