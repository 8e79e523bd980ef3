//! What is known of a file that carried out what it was asked.
ghost use Rattle.usbdisk.specs.images.CopyLaws.{ExportingExports, ImportingMakesImage};
ghost use Rattle.usbdisk.specs.images.NewImage.{MakingMakesNew};

/// Does nothing: its contract says that an emptied device that carries out what a making asks for
/// is a new image, and what a cut leaves of it on the way there.
pub fn making_laws()
    ensures { MakingMakesNew }
{}

/// Does nothing: its contract says what an emptied device holds that carries out what an export
/// asks for, or what an import does, and what a cut leaves of the latter on the way there.
pub fn copy_laws()
    ensures exports { ExportingExports }
    ensures imports { ImportingMakesImage }
{}
