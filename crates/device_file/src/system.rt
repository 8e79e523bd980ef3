//! A file of the system, and what it was asked.
ghost use Rattle.std.specs.Prelude.{◌≡◌, ◌*◌, ◌+◌, ◌/◌, ◌<◌, ◌≤◌, ◌^◌};
ghost use Rattle.std.specs.Prelude.{IfOk, IfErr, OnOk, OnErr, is_ok, length, true};
ghost use Rattle.medium.specs.FileStory.{IsJustOpened, IsMeasured, answered};
ghost use Rattle.medium.specs.declared.file_call.FileCall.TheVariants.{Lock, Sync};
ghost use Rattle.device_file.specs.FileValue.{GivesBlock, IsMade, IsOpened, PutsRun, Resizes};
ghost use Rattle.device_file.specs.FileValue.{RefusesBlocks, made_for};
ghost use Rattle.device_file.specs.Reads.{AreRead};
ghost use Rattle.device_file.specs.Asked.{begun};

use crate::existing::Existing;
use crate::fault::{FileCall, FileFault};
use crate::file::DeviceFile;
use crate::run::Run;
use crate::story::{Event, Story};
use medium::{Access, OpenedFile, SectorFile, ToldFile, look_whole, put};
use std::fs::Files;
use std::io::ErrorKind;
use std::marker::Model;
use window::SECTOR;

// A place in a file lies below this one.
const PLACES: u64 = 1 << 63;

/// A file of sectors, which is locked for its handle until it is dropped. The lock keeps out those
/// alone who ask for it. What it is asked is a call of the file behind it, or some.
///
/// That this file does what it is asked, until it refuses, is a premise: the standard library says
/// nothing of what a file of the system holds.
#[derive(Drop)]
pub struct SystemFile<S: ToldFile> {
    file: S,
    sectors: u64,
    story: Story,
}

impl<S: ToldFile> Model for SystemFile<S> {
    ghost use Rattle.device_file.specs.FileValue.{ValueOver};

    ghost Value = { ValueOver S };

    ghost use Rattle.device_file.specs.FileView.{view_of};

    ghost view = { view_of };

    ghost use Rattle.device_file.specs.Carried.{IsCarried};

    ghost invariant = { λ m. IsCarried m.story.told (S.told m.file) };
}

/// The plain file at this path, opened for this: `Look`, where the system refuses its writes, or
/// `Change`. It is locked before it is measured, and before anything is read of it.
///
/// # Errors
/// The call that was refused, and the cause: `WouldBlock` where another handle has it locked,
/// `InvalidInput` where it is no plain file, `InvalidData` where it has no whole sectors alone.
pub fn open<F: SectorFile + Drop, R: Files<File = F>>(
    rt: &R,
    path: &str,
    access: Access,
) -> Result<SystemFile<OpenedFile<F>>, FileFault>
    ensures { IfOk result (IsOpened path.now access) }
{
    let mut file = open_plain(rt, path, access)?;
    let length = lock_and_measure(&mut file)?;
    if length % SECTOR as u64 != 0 {
        return Err(FileCall::Length.refused_for(ErrorKind::InvalidData));
    }
    Ok(SystemFile::over(file, path, access, length / SECTOR as u64))
}

/// A file of `sectors` sectors at this path, which was made now, or emptied. Nothing was written to
/// it: what the system gives for a part of a file that nobody wrote is zeros.
///
/// A file that is there is refused as `AlreadyExists`, and stays as it is, where it is not to be
/// replaced. To be replaced it is locked, and only then emptied.
///
/// # Errors
/// The call that was refused, and the cause: `WouldBlock` where another handle has it locked,
/// `InvalidInput` where it is no plain file.
pub fn create<F: SectorFile + Drop, R: Files<File = F>>(
    rt: &R,
    path: &str,
    sectors: u64,
    existing: Existing,
) -> Result<SystemFile<OpenedFile<F>>, FileFault>
    ensures { IfOk result (IsMade path.now existing sectors) }
{
    let Some(length) = sectors.checked_mul(SECTOR as u64) else {
        return Err(FileCall::Length.refused_for(ErrorKind::InvalidInput));
    };
    let access = access_for(existing);
    let mut file = open_plain(rt, path, access)?;
    lock(&mut file)?;
    resize(&mut file, 0)?;
    resize(&mut file, length)?;
    Ok(SystemFile::over(file, path, access, sectors))
}

// What a file is opened for that is made, or that may be replaced.
fn access_for(existing: Existing) -> Access
    ensures { result ≡ made_for existing }
{
    match existing {
        Existing::Keep => Access::Make,
        Existing::Replace => Access::Replace,
    }
}

impl<S: ToldFile> SystemFile<S> {
    ghost use Rattle.device_file.specs.Carried.{IsCarried, IsOpening};

    // A file of `sectors` sectors, which was opened so and asked nothing since.
    fn over(file: S, path: &str, access: Access, sectors: u64) -> SystemFile<S>
        requires { IsOpening access (S.told file).asked }
        ensures { result ≡ record {
          size = sectors;
          told = begun path.now access;
          file = file;
        } }
    {
        SystemFile {
            file,
            sectors,
            story: Story::of(&Event::Opened(path.as_bytes(), access)),
        }
    }

    /// Does nothing. Its contract says by which calls of the file behind it carried out what it was
    /// asked: it was locked first, and each flush is one synchronising.
    pub fn foresee(&self)
        ensures { IsCarried self.now.told (S.told self.now.file) }
    {
        let _sectors = self.sectors;
    }
}

// Opens a plain file. What is no plain file is not touched.
fn open_plain<F: SectorFile + Drop, R: Files<File = F>>(
    rt: &R,
    path: &str,
    access: Access,
) -> Result<OpenedFile<F>, FileFault>
    ensures { IfOk result (IsJustOpened path.now access) }
{
    let file = match OpenedFile::open(rt, path, access) {
        Ok(file) => file,
        Err(error) => return Err(FileCall::Open.refused_for(error.kind())),
    };
    match file.is_plain() {
        Ok(true) => Ok(file),
        Ok(false) => Err(FileCall::Length.refused_for(ErrorKind::InvalidInput)),
        Err(error) => Err(FileCall::Length.refused_for(error.kind())),
    }
}

// Locks a file, and only then tells how many bytes it has.
fn lock_and_measure<S: ToldFile>(file: &mut S) -> Result<u64, FileFault>
    ensures { IfOk result (λ bytes. IsMeasured bytes (S.told file.old) (S.told file.new)) }
{
    lock(file)?;
    match file.measure() {
        Ok(length) => Ok(length),
        Err(error) => Err(FileCall::Length.refused_for(error.kind())),
    }
}

// Locks a file.
fn lock<S: ToldFile>(file: &mut S) -> Result<(), FileFault>
    ensures ok { OnOk result (S.told file.new ≡ answered true Lock (S.told file.old)) }
    ensures err { IfErr result (λ fault. fault.call ≡ FileCall.Lock) }
{
    match file.lock() {
        Ok(()) => Ok(()),
        Err(error) => Err(FileCall::Lock.refused_for(error.kind())),
    }
}

// Gives a file this length.
fn resize<S: ToldFile>(file: &mut S, length: u64) -> Result<(), FileFault>
    ensures ok { OnOk result (Resizes length (S.told file.old) (S.told file.new)) }
    ensures err { IfErr result (λ fault. fault.call ≡ FileCall.Length) }
{
    match file.resize(length) {
        Ok(()) => Ok(()),
        Err(error) => Err(FileCall::Length.refused_for(error.kind())),
    }
}

impl<S: ToldFile> DeviceFile for SystemFile<S> {
    ghost use Rattle.std.specs.Prelude.{◌≡◌, [], ◌∷◌, is_ok};
    ghost use Rattle.window.specs.declared.call.DeviceCall.TheVariants.{Flush};
    ghost use Rattle.medium.specs.FileStory.{answered};
    ghost use Rattle.medium.specs.declared.file_call.FileCall.TheVariants.{Sync};
    ghost use Rattle.device_file.specs.Asked.{AsksFor, writes_of};
    ghost use Rattle.device_file.specs.FileValue.{GivesBlock, PutsRun, RefusesBlocks};
    ghost use Rattle.device_file.specs.Carried.{AsksPart};
    ghost use Rattle.device_file.specs.Reads.{AreRead};

    ghost told = { λ file. file.told };

    ghost size = { λ file. file.size };

    // What looks at the file gave, and which of them were in vain.
    ghost holds = { λ file sector block. GivesBlock (S.told file.file).looks sector block };

    ghost refuses = { λ file first count. RefusesBlocks (S.told file.file).looks first count };

    ghost gave = { λ file first bytes.
        AreRead (GivesBlock (S.told file.file).looks) first bytes };

    ghost at_once = { λ old calls new. AsksPart calls (S.told old.file) (S.told new.file) };

    fn sectors(&self) -> u64 {
        self.sectors
    }

    fn read(&self, first: u64, to: &mut [u8]) -> Result<(), FileFault> {
        read_sectors(&self.file, first, to)
    }

    fn write(&mut self, run: &Run) -> Result<(), FileFault>
        ensures asks { AsksFor (λ file. file.told) (λ file. file.size)
            (writes_of run.now.first run.now.blocks.items) FileCall.Write self.old self.new
            result }
        ensures once { AsksPart (writes_of run.now.first run.now.blocks.items)
            (S.told self.old.file) (S.told self.new.file) }
        ensures puts { PutsRun run.now (S.told self.old.file) (S.told self.new.file) result }
    {
        let written = write_run(&mut self.file, run);
        self.story = Story::of(&Event::Wrote(&self.story, run, written.is_ok()));
        written
    }

    fn sync(&mut self) -> Result<(), FileFault>
        ensures asks { AsksFor (λ file. file.told) (λ file. file.size) (Flush ∷ []) FileCall.Sync
            self.old self.new result }
        ensures once { AsksPart (Flush ∷ []) (S.told self.old.file) (S.told self.new.file) }
        ensures syncs { S.told self.new.file
            ≡ answered (is_ok result) Sync (S.told self.old.file) }
    {
        let synced = sync_all(&mut self.file);
        self.story = Story::of(&Event::Synced(&self.story, synced.is_ok()));
        synced
    }
}

// Reads sectors from this one on, all that there is room for.
fn read_sectors<S: ToldFile>(file: &S, first: u64, to: &mut [u8]) -> Result<(), FileFault>
    ensures read { OnOk result (AreRead (GivesBlock (S.told file.now).looks) first to.new) }
    ensures unread { OnErr result
        (RefusesBlocks (S.told file.now).looks first (length to.new / 512)) }
    ensures err { IfErr result (λ fault. fault.call ≡ FileCall.Read) }
{
    let at = place_of(FileCall::Read, first, to.len())?;
    match look_whole(file, to, at) {
        Ok(()) => Ok(()),
        Err(error) => Err(FileCall::Read.refused_for(error.kind())),
    }
}

// Writes a run at its place, all of it.
fn write_run<S: ToldFile>(file: &mut S, run: &Run) -> Result<(), FileFault>
    ensures puts { PutsRun run.now (S.told file.old) (S.told file.new) result }
    ensures err { IfErr result (λ fault. fault.call ≡ FileCall.Write) }
{
    let bytes = run.blocks.as_slice().as_flattened();
    if bytes.is_empty() {
        return Ok(());
    }
    let at = place_of(FileCall::Write, run.first, bytes.len())?;
    match put(file, bytes, at) {
        Ok(()) => Ok(()),
        Err(error) => Err(FileCall::Write.refused_for(error.kind())),
    }
}

// Waits for all that was written.
fn sync_all<S: ToldFile>(file: &mut S) -> Result<(), FileFault>
    ensures syncs { S.told file.new ≡ answered (is_ok result) Sync (S.told file.old) }
    ensures err { IfErr result (λ fault. fault.call ≡ FileCall.Sync) }
{
    match file.sync() {
        Ok(()) => Ok(()),
        Err(error) => Err(FileCall::Sync.refused_for(error.kind())),
    }
}

// The byte at which a sector begins. So many bytes from there on have places in a file.
fn place_of(call: FileCall, sector: u64, count: usize) -> Result<u64, FileFault>
    ensures ok { IfOk result (λ at. (at ≡ 512 * sector) × (at + count < 2 ^ 63)) }
    ensures over { OnErr result (2 ^ 63 ≤ 512 * sector + count) }
    ensures err { IfErr result (λ fault. fault.call ≡ call) }
{
    if sector >= PLACES / SECTOR as u64 || count as u64 >= PLACES - sector * SECTOR as u64 {
        return Err(call.refused_for(ErrorKind::InvalidInput));
    }
    Ok(sector * SECTOR as u64)
}
