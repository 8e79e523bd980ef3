//! What holds of every sector, and of every image.
ghost use Rattle.journal.specs.Standing.{SpellsOneValue, StandsForOneArray, StandsOrHasOneFault};

/// Does nothing: its contract says that the layout is without ambiguity.
pub fn layout_laws()
    ensures { SpellsOneValue }
{}

/// Does nothing: its contract says that an image stands for one array at most, or has one fault.
pub fn image_laws()
    ensures arrays { StandsForOneArray }
    ensures faults { StandsOrHasOneFault }
{}
