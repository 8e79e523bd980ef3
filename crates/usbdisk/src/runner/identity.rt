//! Vendor, product, revision and serial number.
ghost use Rattle.std.specs.Prelude.{◌≡◌};
ghost use Rattle.usbdisk.specs.runner.Script.{identification};

use bot_machine::Identity;

/// The texts by which the disk of a script is known.
pub fn disk_identity() -> Identity
    ensures { result ≡ identification }
{
    Identity::new(
        *b"USBDISK ",
        *b"POWER SAFE DISK ",
        *b"0001",
        *b"000000000001",
    )
    .unwrap()
}
