//! What users of a disk rely on from one run to the next.
ghost use Rattle.usbdisk.specs.runner.Laws.{FormatIsReady, MigrationIsReady, LivesAreReady};

/// Does nothing: its contract says that a life opens over a medium that was formatted or migrated
/// and then cut, and over one that lives have left, and with what.
pub fn lives_laws()
    ensures format { FormatIsReady }
    ensures migration { MigrationIsReady }
    ensures lives { LivesAreReady }
{}
