//! What a device is to do next, as C is told it.
ghost use Rattle.std.specs.Prelude.{◌≡◌};
ghost use Rattle.calls.specs.Asks.{told_as};

use window::DeviceAsk;

/// C's `struct usbdisk_call`.
#[repr(C)]
#[derive(Clone, Copy)]
pub struct UsbDiskCall {
    pub kind: u32,
    pub sector: u64,
    pub count: u64,
}

/// A call as C is told it.
pub(crate) fn told(ask: DeviceAsk) -> UsbDiskCall
    ensures { result ≡ told_as ask }
{
    match ask {
        DeviceAsk::Nothing => call(0, 0, 0),
        DeviceAsk::Write { first, count } => call(1, first, count as u64),
        DeviceAsk::Flush => call(2, 0, 0),
        DeviceAsk::Read(read) => call(3, read.first, u64::from(read.count)),
    }
}

fn call(kind: u32, sector: u64, count: u64) -> UsbDiskCall
    ensures { result ≡ record { kind = kind; sector = sector; count = count } }
{
    UsbDiskCall {
        kind,
        sector,
        count,
    }
}
