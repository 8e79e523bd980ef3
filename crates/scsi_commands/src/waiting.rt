//! Sense and unit attention are kept from one command to the next.
ghost use Rattle.std.specs.Prelude.{◌≡◌, None, true};
ghost use Rattle.scsi.specs.Waiting.{Waiting, after_failure, reported, after_report};

use crate::codes::Sense;
use std::marker::Model;
use std::mem;

/// What waits for REQUEST SENSE: the sense of the command that failed last, and the unit attention
/// that a start leaves pending (SPC-4, REQUEST SENSE).
#[derive(Debug, Drop)]
pub struct Kept {
    sense: Option<Sense>,
    attention: bool,
}

impl Model for Kept {
    ghost Value = { Waiting };

    ghost view = { λ kept. record { sense = kept.sense; attention = kept.attention } };
}

impl Kept {
    /// After a start: the unit attention is pending, and no sense is kept.
    pub fn new() -> Kept
        ensures { result ≡ record { sense = None; attention = true } }
    {
        Kept {
            sense: None,
            attention: true,
        }
    }

    /// Whether the unit attention is pending.
    pub fn attention(&self) -> bool
        ensures { result ≡ self.now.attention }
    {
        self.attention
    }

    /// A command begins: the sense of an earlier one is dropped.
    pub fn begin(&mut self)
        ensures { self.new ≡ record self.old { sense = None } }
    {
        self.sense = None;
    }

    /// A command failed: its sense is kept. The sense that reports the unit attention ends it.
    pub fn fail(&mut self, sense: Sense)
        ensures kept { self.new ≡ after_failure sense self.old }
        ensures comes_next { reported self.new ≡ sense }
    {
        self.sense = Some(sense);
        if sense == Sense::POWER_ON_OR_RESET_OCCURRED {
            self.attention = false;
        }
    }

    /// What REQUEST SENSE reports, which then waits no longer: the kept sense, else the pending
    /// unit attention, else no sense.
    pub fn take(&mut self) -> Sense
        ensures reported { result ≡ reported self.old }
        ensures left { self.new ≡ after_report self.old }
    {
        if let Some(sense) = self.sense.take() {
            sense
        } else if mem::take(&mut self.attention) {
            Sense::POWER_ON_OR_RESET_OCCURRED
        } else {
            Sense::NO_SENSE
        }
    }
}
