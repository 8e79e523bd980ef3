//! The making of an image, a part at a time: what is left of it.
ghost use Rattle.std.specs.Prelude.{◌≤◌, ◌+◌};

use journal::Super;

/// What is made around the blocks of an image.
#[derive(Clone, Copy, Debug, PartialEq, Eq)]
pub enum Aim {
    /// An image of blocks of zeros.
    Format,
    /// A log before the blocks that are at home already.
    Laying,
}

/// What is left of it.
#[derive(Clone, Copy)]
pub enum Plan {
    /// To clear home, and then to lay the log.
    Home(HomePlan),
    /// To lay the log.
    Log(LogPlan),
}

/// Home is cleared from its first sector on.
#[derive(Clone, Copy)]
pub struct HomePlan {
    pub sizes: Super,
    /// The first sector of home that is not cleared yet, or where home ends.
    pub at: u64,
    pub ghost from_home: { sizes.home ≤ at },
    pub ghost in_home: { at ≤ sizes.home + sizes.blocks },
}

/// The sectors before home are cleared from sector 1 on, and then head and super are written.
#[derive(Clone, Copy)]
pub struct LogPlan {
    pub sizes: Super,
    /// The first sector before home that is not cleared yet, or where home begins.
    pub at: u64,
    pub ghost behind_super: { 1 ≤ at },
    pub ghost before_home: { at ≤ sizes.home },
}
