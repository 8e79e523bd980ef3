//! A window and the file behind it.
ghost use Rattle.std.specs.Prelude.{◌≡◌, ◌/◌, None, OnOk, OnErr, length};
ghost use Rattle.device_file.specs.Reads.{AreRead};

use device_file::{DeviceFile, FileFault, Run, carry_out};
use medium::{Inlet, Medium, MediumFault, Outlet};
use window::WindowMedium;

/// A window over the first sectors of a file, and the file. Calls of a medium are those of the
/// window, and leave the file alone. What waits in the window's outbox is asked of the file by
/// `pop`, all of it at once.
///
/// That the file holds what the window thinks is a premise of whoever makes it.
#[derive(Drop)]
pub struct FileWindow<D> {
    window: WindowMedium,
    file: D,
    run: Run,
    fault: Option<FileFault>,
}

impl<D: DeviceFile> FileWindow<D> {
    ghost use Rattle.usbdisk.specs.live.FileWindows.{IsOver, Carries};

    /// A window over this file, with the memory for the longest write.
    pub fn new(window: WindowMedium, file: D, run: Run) -> FileWindow<D>
        ensures { IsOver window file result }
    {
        FileWindow {
            window,
            file,
            run,
            fault: None,
        }
    }

    /// What lies in memory of the file, and what the file is still to be asked.
    pub fn window(&self) -> &WindowMedium
        ensures { result.now ≡ self.now.window }
    {
        &self.window
    }

    /// Reads sectors of the file. It is no call of a medium.
    ///
    /// # Errors
    ///
    /// The file refused the read. The bytes may be any then.
    pub fn read_file(&self, first: u64, to: &mut [u8]) -> Result<(), FileFault>
        ensures read { OnOk result (AreRead (D.holds self.now.file) first to.new) }
        ensures unread { OnErr result (D.refuses self.now.file first (length to.new / 512)) }
    {
        self.file.read(first, to)
    }

    /// The call that the file refused when it was last asked to carry out what waited.
    pub fn fault(&self) -> Option<FileFault>
        ensures { result ≡ self.now.fault }
    {
        self.fault
    }

    /// Gives the file back, with all that it was asked.
    pub fn into_file(self) -> D
        ensures { result ≡ self.file }
    {
        self.file
    }

    // Has the file carry out what waits.
    fn carry(&mut self)
        ensures { Carries D.told D.at_once self.old self.new }
    {
        self.fault = match carry_out(&mut self.window, &mut self.file, &mut self.run) {
            Ok(()) => None,
            Err(fault) => Some(fault),
        };
    }
}

impl<D: DeviceFile> Medium for FileWindow<D> {
    ghost use Rattle.std.specs.Prelude.{◌≡◌, ◌⊎◌, ◌<◌, ◌/◌, length, OnOk, OnErr};
    ghost use Rattle.medium.specs.Medium.{Stays, Holds, Within, Gains, Only, Passes, LooksOnly};
    ghost use Rattle.medium.specs.Range.{AreSectors, ReadsAtOnce};
    ghost use Rattle.medium.specs.declared.fault.MediumFault.TheVariants.{Read, Write, Flush};
    ghost use Rattle.usbdisk.specs.live.FileWindows.{state_of, GoesOn};
    ghost use Rattle.usbdisk.specs.live.FileWindowLaws.{is_sound, goes_on_itself, goes_on_through};

    ghost state = { state_of };

    ghost follows = { GoesOn };

    ghost sound = { is_sound };

    ghost follows_itself = { goes_on_itself };

    ghost follows_through = { goes_on_through };

    fn sectors(&self) -> u64 {
        self.window.sectors()
    }

    fn read(&mut self, sector: u64, to: &mut [u8; 512]) -> Result<(), MediumFault> {
        self.window.read(sector, to)
    }

    fn read_at_once(&mut self, sector: u64, to: &mut [u8]) -> bool {
        self.window.read_at_once(sector, to)
    }

    fn write(&mut self, sector: u64, from: &[u8; 512]) -> Result<(), MediumFault> {
        self.window.write(sector, from)
    }

    fn flush(&mut self) -> Result<(), MediumFault> {
        self.window.flush()
    }
}

// To let go of what waits has the file carry it out.
impl<D: DeviceFile> Outlet for FileWindow<D> {
    ghost use Rattle.usbdisk.specs.live.FileWindows.{Carries};

    ghost given = { Carries D.told D.at_once };

    fn pop(&mut self) {
        self.carry();
    }
}

impl<D: DeviceFile> Inlet for FileWindow<D> {
    ghost use Rattle.usbdisk.specs.live.FileWindows.{Shows};

    ghost shown = { Shows };

    fn show(&mut self, first: u64, bytes: &[u8]) -> bool {
        self.window.fill(first, bytes)
    }
}
