//! What a file was asked, for proofs alone. It takes no memory.
ghost use Rattle.std.specs.Prelude.{◌≡◌};
ghost use Rattle.std.specs.Borrow.{ftrue};
ghost use Rattle.device_file.specs.Asked.{Told};

use crate::run::Run;
use medium::Access;
use std::marker::Model;

#[derive(Drop)]
pub(crate) struct Story {
    pub ghost told: { Told },
}

impl Model for Story {
    ghost also_owns = { λ _. ftrue };
}

/// What happened, behind which story.
#[derive(Drop)]
pub(crate) enum Event<'a> {
    /// It begins with a file that was opened at this path, for this.
    Opened(&'a [u8], Access),
    /// Neighbouring sectors that were to be written, and whether they were.
    Wrote(&'a Story, &'a Run, bool),
    /// A flush, and whether it was carried out.
    Synced(&'a Story, bool),
}

impl Story {
    ghost use Rattle.device_file.specs.Events.{told_by};

    /// The story with this event.
    pub(crate) fn of(_event: &Event) -> Story
        ensures { result.told ≡ told_by _event.now }
    {
        Story {}
    }
}
