//! What each call of a disk answers.
use spec::Answer;

/// What a disk answers to a packet to Bulk-Out.
#[derive(Clone, Copy, Debug, PartialEq, Eq)]
pub enum OutAnswer {
    Ack,
    Nak,
    Stall,
}

/// What a disk answers to a token to Bulk-In.
#[derive(Clone, Copy)]
pub enum InAnswer<'a> {
    /// A packet of at most 512 bytes.
    Data(&'a [u8]),
    Nak,
    Stall,
}

/// What a disk answers to a setup packet.
#[derive(Clone, Copy, Debug, PartialEq, Eq)]
pub enum SetupAnswer {
    Ack,
    Byte(u8),
    Two([u8; 2]),
    Stall,
}

impl From<OutAnswer> for Answer {
    ghost use Rattle.std.specs.Prelude.{◌≡◌};
    ghost use Rattle.bot_machine.specs.Answers.{answer_to_out};

    ghost from_gives = { λ given answer. answer ≡ answer_to_out given };

    fn from(given: OutAnswer) -> Answer {
        match given {
            OutAnswer::Ack => Answer::Ack,
            OutAnswer::Nak => Answer::Nak,
            OutAnswer::Stall => Answer::Stall,
        }
    }
}

impl From<SetupAnswer> for Answer {
    ghost use Rattle.std.specs.Prelude.{◌≡◌};
    ghost use Rattle.bot_machine.specs.Answers.{answer_to_setup};

    ghost from_gives = { λ given answer. answer ≡ answer_to_setup given };

    fn from(given: SetupAnswer) -> Answer {
        match given {
            SetupAnswer::Ack => Answer::Ack,
            SetupAnswer::Byte(byte) => Answer::Byte(byte),
            SetupAnswer::Two(bytes) => Answer::Two(bytes),
            SetupAnswer::Stall => Answer::Stall,
        }
    }
}
