//! The exchange of one command, as its wrapper began it.
ghost use Rattle.std.specs.Prelude.{◌≡◌, ◌≤◌};
ghost use Rattle.spec.specs.Exchange.{moment_of, case_if_failed};
ghost use Rattle.spec.specs.UnitConversation.{way_of};
ghost use Rattle.bot_machine.specs.Refinement.{moment_meant, sent_size};

use scsi_unit::Intent;
use spec::{Case, Cbw, Way};

// A command, what the unit intended for it when its wrapper came, and the case that this makes.
#[derive(Drop)]
pub(crate) struct Exchange {
    pub(crate) case: Case,
    pub(crate) command: Cbw,
    pub(crate) intended: Way,
}

// When a command is carried out.
#[derive(Clone, Copy)]
pub(crate) enum When {
    // In the event of its wrapper.
    AtOnce,
    // In the event of the last byte of its data.
    AfterData,
    // Not at all: the host expects other bytes than the device.
    Never,
}

/// When the command of a case is carried out.
pub(crate) fn when_carried_out(case: Case) -> When
    ensures { moment_meant result ≡ moment_of case }
{
    match case {
        Case::C1 | Case::C4 | Case::C5 | Case::C6 => When::AtOnce,
        Case::C9 | Case::C11 | Case::C12 => When::AfterData,
        Case::C2 | Case::C3 | Case::C7 | Case::C8 | Case::C10 | Case::C13 => When::Never,
    }
}

/// The case that a command goes on as that failed when it was carried out.
pub(crate) fn after_failure(case: Case) -> Case
    ensures { result ≡ case_if_failed case }
{
    match case {
        Case::C5 | Case::C6 => Case::C4,
        _ => case,
    }
}

/// How many of the bytes that a good command gave are sent.
pub(crate) fn size_sent(case: Case, size: usize) -> usize
    ensures is { result ≡ sent_size case size }
    ensures most { result ≤ size }
{
    match case {
        Case::C5 | Case::C6 => size,
        _ => 0,
    }
}

/// What is intended, as a direction and a number of bytes. A refused command intends nothing.
pub(crate) fn way_of_intent(intent: Intent) -> Way
    ensures { result ≡ way_of intent }
{
    match intent {
        Intent::None | Intent::Fail(_) => Way::Nothing,
        Intent::In(size) => Way::In(size),
        Intent::Out(size) => Way::Out(size),
    }
}
