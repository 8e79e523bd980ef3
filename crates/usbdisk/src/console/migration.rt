//! What is told of an image that is of format 2 now.
ghost use Rattle.std.specs.Prelude.{◌≡◌};
ghost use Rattle.usbdisk.specs.console.Texts.{migration_text};

/// The line that tells whether it was of format 1.
pub fn migration_line(was_one: bool) -> &'static [u8]
    ensures { result.now ≡ migration_text was_one }
{
    if was_one {
        b"migrated\n"
    } else {
        b"already format 2\n"
    }
}
