//! What a file was asked, for proofs alone. It takes no memory.
ghost use Rattle.std.specs.Prelude.{◌≡◌, []};
ghost use Rattle.std.specs.Borrow.{ftrue};
ghost use Rattle.medium.specs.FileStory.{Told, noted};
ghost use Rattle.medium.specs.Witness.{TakesAny, takes_any_code};

use crate::file_call::Answered;
use std::marker::Model;

#[derive(Drop)]
pub(crate) struct Story {
    pub ghost told: { Told },
    // No other crate has this proof: it learns the answers of a look from that look alone.
    pub ghost any: { TakesAny told.looks } by { takes_any_code told.looks },
}

impl Model for Story {
    ghost also_owns = { λ _. ftrue };
}

// What a story tells.
#[derive(Drop)]
enum Telling<'a> {
    Nothing,
    /// A call behind this story, and the bytes that it read or wrote.
    Noted(&'a Story, &'a Answered, &'a [u8]),
}

impl Story {
    ghost use Rattle.medium.specs.Telling.{IsToldBy};

    /// Nothing was asked yet. What the file holds is not known.
    pub(crate) fn new() -> Story
        ensures { result.told.asked ≡ [] }
    {
        Story::of(&Telling::Nothing)
    }

    /// Notes a call, and the bytes that it read or wrote.
    pub(crate) fn note(&mut self, answered: &Answered, bytes: &[u8])
        ensures { self.new.told ≡ noted answered.now bytes.now self.old.told }
    {
        *self = Story::of(&Telling::Noted(self, answered, bytes));
    }

    // The story that tells this.
    fn of(_telling: &Telling) -> Story
        ensures { IsToldBy _telling.now result.told }
    {
        Story {}
    }
}
