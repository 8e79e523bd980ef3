//! The texts that a disk tells of itself, as C gives them.

/// C's `struct usbdisk_identity`: four texts of printable ASCII, padded with spaces.
#[repr(C)]
#[derive(Clone, Copy)]
pub struct UsbDiskIdentity {
    pub vendor: [u8; 8],
    pub product: [u8; 16],
    pub revision: [u8; 4],
    pub serial: [u8; 12],
}
