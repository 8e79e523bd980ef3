//! The numbers of a life.

/// How many writes were accepted, and how many of them are promised; the same of the life before;
/// and how many starts there were.
#[derive(Clone, Copy)]
pub(crate) struct Life {
    pub(crate) accepted: u64,
    pub(crate) promised: u64,
    pub(crate) accepted_before: u64,
    pub(crate) promised_before: u64,
    pub(crate) starts: u64,
}

impl Life {
    ghost use Rattle.std.specs.Prelude.{◌≡◌};
    ghost use Rattle.page.specs.Standing.{first_life, next_life};

    /// Before the first start.
    pub(crate) fn new() -> Life
        ensures { result ≡ first_life }
    {
        Life {
            accepted: 0,
            promised: 0,
            accepted_before: 0,
            promised_before: 0,
            starts: 0,
        }
    }

    /// The life after a start.
    pub(crate) fn next(self) -> Life
        ensures { result ≡ next_life self }
    {
        Life {
            accepted: 0,
            promised: 0,
            accepted_before: self.accepted,
            promised_before: self.promised,
            starts: self.starts.saturating_add(1),
        }
    }
}
