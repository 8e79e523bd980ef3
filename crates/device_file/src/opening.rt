//! From a file that is open to a window over it.
ghost use Rattle.std.specs.Prelude.{◌≡◌, ◌*◌, ◌/◌, ◌<◌, ◌≤◌, ◌++◌};
ghost use Rattle.std.specs.Prelude.{IfOk, IfErr, OnOk, length, drop, min};
ghost use Rattle.medium.specs.Moments.{IsFlushed};
ghost use Rattle.medium.specs.Writes.{sector_of};
ghost use Rattle.window.specs.Window.{fresh, state_of};
ghost use Rattle.device_file.specs.Reads.{AreRead, AreReadBehind, AreReadByTwo};
ghost use Rattle.device_file.specs.First.{IsUnopened, SpellsSuper, near_of};

use crate::fault::{FileCall, FileFault};
use crate::file::DeviceFile;
use journal::Super;
use std::alloc::Global;
use std::io::ErrorKind;
use window::{DeviceHolds, Reserve, SECTOR, WindowMedium};

/// Why no window over a file was made.
#[derive(Clone, Copy, Debug, PartialEq, Eq)]
pub enum OpenFault {
    /// The file refused a call, or it has no sector.
    File(FileFault),
    NoMemory,
}

impl From<FileFault> for OpenFault {
    ghost use Rattle.device_file.specs.declared.opening.OpenFault.TheVariants as fault;

    ghost from_gives = { λ why e. e ≡ fault.File why };

    fn from(fault: FileFault) -> OpenFault {
        OpenFault::File(fault)
    }
}

/// The first sectors of a file: super, head and log, up to the first home sector.
#[derive(Drop)]
pub struct FirstSectors {
    /// The super that sector 0 spells, where it spells one. The file may be shorter than it says.
    pub sizes: Option<Super>,
    /// How many sectors the file has.
    pub sectors: u64,
    pub bytes: Vec<u8>,
    pub ghost some: { 0 < sectors },
    pub ghost count: { length bytes.items ≡ 512 * min (near_of sizes) sectors },
}

impl FirstSectors {
    /// Reads the first sectors of a file: all before the first home sector that its super tells,
    /// and two where it has none; those that it has, where it is shorter.
    ///
    /// # Errors
    /// `InvalidData` where the file has no sector, the read that was refused, and `NoMemory`.
    pub fn read<D: DeviceFile>(alloc: Global, file: &D) -> Result<FirstSectors, OpenFault>
        ensures ok { IfOk result (λ first. (first.sectors ≡ D.size file.now)
            × SpellsSuper first.sizes (sector_of first.bytes.items 0)) }
        ensures read { IfOk result (λ first. AreRead (D.holds file.now) 0 first.bytes.items) }
        ensures calls { IfOk result (λ first. AreReadByTwo (D.gave file.now) first.bytes.items) }
        ensures err { IfErr result (IsUnopened (D.refuses file.now) (D.size file.now)) }
    {
        let sectors = count_some(file)?;
        let mut sector = [0; SECTOR];
        file.read(0, &mut sector)?;
        let sizes = super_in(&sector);
        let near = near_for(&sizes, sectors);
        let Ok(mut bytes) = vec![in alloc; 0u8; near as usize * SECTOR] else {
            return Err(OpenFault::NoMemory);
        };
        fill(file, &sector, &mut bytes)?;
        Ok(FirstSectors {
            sizes,
            sectors,
            bytes,
        })
    }

    /// A window over the file: its first sectors hold these bytes, the others what the device
    /// holds, all durably. There is room to show `span` sectors, and for `room` writes and
    /// flushes.
    ///
    /// # Errors
    /// Where the room could not be had.
    pub fn into_window(
        self,
        alloc: Global,
        device: &DeviceHolds,
        span: u32,
        room: usize,
    ) -> Result<WindowMedium, OpenFault>
        ensures ok { IfOk result (λ m. m
            ≡ fresh self.sectors self.bytes.items device.now.bytes span room) }
        ensures flushed { IfOk result (λ m. IsFlushed (state_of m)) }
        ensures err { IfErr result (λ fault. fault ≡ OpenFault.NoMemory) }
    {
        let reserve = Reserve { span, room };
        match WindowMedium::new(alloc, self.bytes, self.sectors, device, reserve) {
            Ok(window) => Ok(window),
            Err(_) => Err(OpenFault::NoMemory),
        }
    }
}

// How many sectors a file has, which are some.
fn count_some<D: DeviceFile>(file: &D) -> Result<u64, FileFault>
    ensures ok { IfOk result (λ sectors. (sectors ≡ D.size file.now) × (0 < sectors)) }
    ensures err { IfErr result (λ fault. (fault.call ≡ FileCall.Length) × (D.size file.now ≡ 0)) }
{
    let sectors = file.sectors();
    if sectors == 0 {
        return Err(FileCall::Length.refused_for(ErrorKind::InvalidData));
    }
    Ok(sectors)
}

// The super that a sector spells.
fn super_in(sector: &[u8; SECTOR]) -> Option<Super>
    ensures { SpellsSuper result sector.now }
{
    match Super::decode(sector) {
        Ok(sizes) => Some(sizes),
        Err(_) => None,
    }
}

// How many of `sectors` sectors, from the first on, are to lie in memory.
fn near_for(sizes: &Option<Super>, sectors: u64) -> u64
    ensures { result ≡ min (near_of sizes.now) sectors }
{
    match sizes {
        Some(sizes) => sizes.home.min(sectors),
        None => sectors.min(2),
    }
}

// Reads the first sectors, and copies sector 0 to the front as it was read before.
fn fill<D: DeviceFile>(file: &D, sector: &[u8; SECTOR], bytes: &mut [u8]) -> Result<(), FileFault>
    requires { 512 ≤ length bytes.old }
    ensures front { OnOk result (sector_of bytes.new 0 ≡ sector.now) }
    ensures read { D.holds file.now 0 sector.now
        → OnOk result (AreRead (D.holds file.now) 0 bytes.new) }
    ensures once { OnOk result (AreReadBehind (D.gave file.now) sector.now bytes.new) }
    ensures err { IfErr result (λ fault. (fault.call ≡ FileCall.Read)
        × D.refuses file.now 0 (length bytes.old / 512)) }
{
    file.read(0, bytes)?;
    put_first(bytes, sector);
    Ok(())
}

// Copies bytes over the front of others.
fn put_first(to: &mut [u8], from: &[u8])
    requires { length from.now ≤ length to.old }
    ensures { to.new ≡ from.now ++ drop (length from.now) to.old }
{
    to[..from.len()].copy_from_slice(from);
}
