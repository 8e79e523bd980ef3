//! A medium over an image file.
ghost use Rattle.std.specs.Prelude.{◌≡◌, ◌≢◌, ◌⊎◌, ◌+◌, ◌*◌, ◌%◌, ◌<◌, ◌≤◌, ◌↔◌, ◌^◌, length};
ghost use Rattle.std.specs.Prelude.{replicate, [], ◌∷◌};
ghost use Rattle.std.specs.Prelude.{IfOk, IfErr, IsErrOf, OnOk, OnErr};
ghost use Rattle.medium.specs.FileStory.{IsReadWhole, IsMadeOf, IsPut, MayPut};
ghost use Rattle.medium.specs.FileStory.{Calls as CallsMade, IsRead, HoldsFirst};
ghost use Rattle.medium.specs.ImageFile.{state_of, fresh, IsImage};
ghost use Rattle.medium.specs.Lengths.{IsLengthOf};
ghost use Rattle.medium.specs.Medium.{Holds};
ghost use Rattle.medium.specs.declared.file_call.FileCall.TheVariants.{Open, Lock, Measure, Resize};
ghost use Rattle.medium.specs.Moments.{IsFlushed};
ghost use Rattle.medium.specs.Writes.{sector_of};

use crate::count::Count;
use crate::fault::MediumFault;
use crate::file_call::Access;
use crate::medium::Medium;
use crate::opened_file::OpenedFile;
use crate::sector_file::SectorFile;
use crate::sectors::{SECTOR, load, store};
use crate::tally::Calls;
use crate::told_file::ToldFile;
use crate::whole::{lock_and_empty, lock_and_measure, put, read_whole};
use std::alloc::Global;
use std::fs::Files;
use std::io;
use std::marker::Model;
use thiserror::Error;

const SECTOR_LIMIT: u64 = 65_536;

/// Why no medium was made of an image file.
#[derive(Error, Clone, Copy, Debug, PartialEq, Eq)]
pub enum FileError {
    #[error("the image file could not be opened, locked, made, read or written")]
    File = 1,
    #[error("the length is not that of one or more sectors")]
    BadLength = 2,
    #[error("there are more than 65,536 sectors")]
    TooLong = 3,
    #[error("out of memory")]
    NoMemory = 4,
}

/// An image file, and a copy of its bytes in memory, taken when it was opened.
///
/// Reads are answered from the copy, and none is refused. A write goes to the file and then to the
/// copy, which a refused one leaves as it was. A flush asks the system to write the file out.
/// After `open` or `create` no call takes memory.
///
/// The file is locked before anything of it is read or changed, until the medium is dropped. So no
/// two media are over one file. The lock keeps out those alone who ask for it.
///
/// What a cut may leave is said of the copy. That the file then holds what the copy held at the
/// last good flush, and of each sector written since it either the old bytes or the new, is a
/// premise: nothing here proves it, and a write that the system broke off may have torn a sector.
#[derive(Drop)]
pub struct FileMedium<F> {
    file: OpenedFile<F>,
    bytes: Vec<u8>,
    calls: Count,
    made: Calls,
    refused: Calls,
}

impl<F> Model for FileMedium<F> {
    ghost use Rattle.medium.specs.ImageFile.{Copied};

    ghost Value = { Copied };

    ghost use Rattle.medium.specs.ImageFileView.{view_of};

    ghost view = { view_of };
}

impl<F: SectorFile + Drop> FileMedium<F> {
    /// The medium of the image file at this path.
    ///
    /// # Errors
    /// `File` where the file cannot be opened, for reading and writing, or another handle has it
    /// locked, or it cannot be read; `BadLength` where its length is 0 or no multiple of 512; then
    /// `TooLong` where it has more than 65,536 sectors; then `NoMemory`.
    pub fn open<R: Files<File = F> + AllocGlobal>(
        rt: &R,
        path: &str,
    ) -> Result<FileMedium<F>, FileError>
        ensures fresh { IfOk result (λ m. m ≡ fresh m.file m.bytes) }
        ensures image { IfOk result (λ m. IsImage m.bytes) }
        ensures copied { IfOk result (λ m. IsReadWhole path.now m.bytes m.file) }
        ensures flushed { IfOk result (λ m. IsFlushed (state_of m)) }
    {
        let Ok(mut file) = OpenedFile::open(rt, path, Access::Change) else {
            return Err(FileError::File);
        };
        let bytes = bytes_of(rt.alloc(), &mut file)?;
        Ok(FileMedium::over(file, bytes))
    }

    /// Makes a file of `sectors` sectors of zeros at this path, in place of one that is there.
    ///
    /// # Errors
    /// `BadLength` where there are 0 sectors, `TooLong` where there are more than 65,536 and then
    /// `NoMemory` are found before the file is touched. `File` also where another handle has the
    /// file locked, or what is there is no plain file: that stays as it is. At any other `File` it
    /// may hold anything.
    pub fn create<R: Files<File = F> + AllocGlobal>(
        rt: &R,
        path: &str,
        sectors: u64,
    ) -> Result<FileMedium<F>, FileError>
        ensures zeros { IfOk result (λ m. m ≡ fresh m.file (replicate (512 * sectors) 0)) }
        ensures made { IfOk result (λ m. IsMadeOf path.now (replicate (512 * sectors) 0) m.file) }
        ensures flushed { IfOk result (λ m. IsFlushed (state_of m)) }
        ensures none { IsErrOf result FileError.BadLength ↔ sectors ≡ 0 }
        ensures long { IsErrOf result FileError.TooLong ↔ 65536 < sectors }
    {
        let bytes = zeros(rt.alloc(), length_of(sectors)?)?;
        let Ok(file) = made_file(rt, path, &bytes) else {
            return Err(FileError::File);
        };
        Ok(FileMedium::over(file, bytes))
    }
}

impl<F> FileMedium<F> {
    // A file of these bytes.
    fn over(file: OpenedFile<F>, bytes: Vec<u8>) -> FileMedium<F>
        ensures { result ≡ fresh file bytes.items }
    {
        FileMedium {
            file,
            bytes,
            calls: Count::new(),
            made: Calls::new(),
            refused: Calls::new(),
        }
    }
}

// The bytes of a file that was just opened, which is locked, then measured, and then read.
fn bytes_of<S: ToldFile>(alloc: Global, file: &mut S) -> Result<Vec<u8>, FileError>
    requires { (S.told file.old).asked ≡ Open Access.Change ∷ [] }
    ensures image { IfOk result (λ bytes. IsImage bytes.items) }
    ensures copied { IfOk result (λ bytes.
        IsReadWhole (S.told file.old).path bytes.items (S.told file.new)) }
{
    let Ok(length) = lock_and_measure(file) else {
        return Err(FileError::File);
    };
    measured_bytes(alloc, file, length)
}

// The bytes of a file that was locked and measured, where they are an image.
fn measured_bytes<S: ToldFile>(
    alloc: Global,
    file: &mut S,
    length: u64,
) -> Result<Vec<u8>, FileError>
    requires size { (S.told file.old).size ≡ length }
    requires asked { (S.told file.old).asked ≡ Open Access.Change ∷ Lock ∷ Measure ∷ [] }
    ensures { IfOk result (λ bytes. IsImage bytes.items
        × IsReadWhole (S.told file.old).path bytes.items (S.told file.new)) }
{
    let count = check_length(length)?;
    first_bytes(alloc, file, count)
}

// The first `count` bytes of a file.
fn first_bytes<S: ToldFile>(alloc: Global, file: &mut S, count: usize) -> Result<Vec<u8>, FileError>
    requires { count < 2 ^ 63 }
    ensures count { IfOk result (λ bytes. length bytes.items ≡ count) }
    ensures reads { OnOk result (CallsMade IsRead (S.told file.old) (S.told file.new)) }
    ensures size { OnOk result ((S.told file.new).size ≡ (S.told file.old).size) }
    ensures holds { IfOk result (λ bytes. HoldsFirst bytes.items (S.told file.new)) }
{
    let mut bytes = zeros(alloc, count)?;
    let Ok(()) = read_whole(file, &mut bytes) else {
        return Err(FileError::File);
    };
    Ok(bytes)
}

// `length` bytes of zeros.
fn zeros(alloc: Global, length: usize) -> Result<Vec<u8>, FileError>
    ensures ok { IfOk result (λ bytes. bytes.items ≡ replicate length 0) }
    ensures err { IfErr result (λ e. e ≡ FileError.NoMemory) }
{
    let Ok(bytes) = vec![in alloc; 0u8; length] else {
        return Err(FileError::NoMemory);
    };
    Ok(bytes)
}

// A file of these bytes at this path, in place of one that is there.
fn made_file<F: SectorFile + Drop, R: Files<File = F>>(
    rt: &R,
    path: &str,
    bytes: &[u8],
) -> io::Result<OpenedFile<F>>
    requires some { 0 < length bytes.now }
    requires few { length bytes.now < 2 ^ 63 }
    ensures { IfOk result (λ file. IsMadeOf path.now bytes.now file) }
{
    let mut file = emptied_file(rt, path)?;
    put(&mut file, bytes, 0)?;
    Ok(file)
}

// The file at this path, made where there is none, locked and only then emptied. To open a pipe for
// reading and writing does not wait for another end, and what is no plain file is not touched.
fn emptied_file<F: SectorFile + Drop, R: Files<File = F>>(
    rt: &R,
    path: &str,
) -> io::Result<OpenedFile<F>>
    ensures path { IfOk result (λ file. file.path ≡ path.now) }
    ensures asked { IfOk result
        (λ file. file.asked ≡ Open Access.Replace ∷ Lock ∷ Resize 0 ∷ []) }
    ensures size { IfOk result (λ file. file.size ≡ 0) }
{
    let mut file = OpenedFile::open(rt, path, Access::Replace)?;
    if !file.is_plain()? {
        return Err(io::Error::from(io::ErrorKind::InvalidInput));
    }
    lock_and_empty(&mut file)?;
    Ok(file)
}

// The length of a file that is an image, as a number of bytes in memory.
fn check_length(length: u64) -> Result<usize, FileError>
    ensures ok { IfOk result (λ bytes. bytes ≡ length) }
    ensures bad { IsErrOf result FileError.BadLength ↔ ((length ≡ 0) ⊎ (length % 512 ≢ 0)) }
    ensures long { IsErrOf result FileError.TooLong
        ↔ ((length % 512 ≡ 0) × (65536 * 512 < length)) }
    ensures other { IfErr result (λ e. (e ≡ FileError.BadLength) ⊎ (e ≡ FileError.TooLong)) }
{
    if length % SECTOR as u64 != 0 {
        return Err(FileError::BadLength);
    }
    length_of(length / SECTOR as u64)
}

// How many bytes `sectors` sectors have, where they are an image.
fn length_of(sectors: u64) -> Result<usize, FileError>
    ensures { IsLengthOf sectors result }
{
    match sectors {
        0 => Err(FileError::BadLength),
        1..=SECTOR_LIMIT => Ok(sectors as usize * SECTOR),
        _ => Err(FileError::TooLong),
    }
}

// Writes a block to a sector's place in a file, and then in the copy of its bytes.
fn write_through<S: ToldFile>(
    file: &mut S,
    copy: &mut Vec<u8>,
    sector: u64,
    block: &[u8; 512],
) -> io::Result<()>
    requires fits { 512 * (sector + 1) ≤ length copy.old.items }
    requires few { length copy.old.items < 2 ^ 63 }
    ensures ok { OnOk result
        (Holds sector block.now (sector_of copy.old.items) (sector_of copy.new.items)
        × IsPut (512 * sector) block.now (S.told file.old) (S.told file.new)) }
    ensures err { OnErr result ((copy.new.items ≡ copy.old.items)
        × MayPut (512 * sector) 512 (S.told file.old) (S.told file.new)) }
    ensures length { length copy.new.items ≡ length copy.old.items }
{
    put_block(file, sector, block)?;
    store(copy, sector, block);
    Ok(())
}

// Writes a block to a sector's place in a file.
fn put_block<S: ToldFile>(file: &mut S, sector: u64, block: &[u8; 512]) -> io::Result<()>
    requires { 512 * (sector + 1) < 2 ^ 63 }
    ensures ok { OnOk result (IsPut (512 * sector) block.now (S.told file.old) (S.told file.new)) }
    ensures err { OnErr result (MayPut (512 * sector) 512 (S.told file.old) (S.told file.new)) }
{
    put(file, block, sector * SECTOR as u64)
}

impl<F: SectorFile> Medium for FileMedium<F> {
    ghost use Rattle.std.specs.Prelude.{◌≡◌, ◌⊎◌, ◌<◌, IsOk, OnOk, OnErr};
    ghost use Rattle.medium.specs.Medium.{Stays, Holds, Within, Gains, Only, Passes, LooksOnly};
    ghost use Rattle.medium.specs.ImageFile.{state_of, called, flushed, unflushed, ComesAfter};
    ghost use Rattle.medium.specs.ImageFile.{IsWritten, IsNotWritten};
    ghost use Rattle.medium.specs.ImageFileLaws.{is_sound, comes_after_itself, comes_after_through};
    ghost use Rattle.medium.specs.declared.fault.MediumFault.TheVariants.{Read, Write, Flush};

    ghost state = { state_of };

    ghost follows = { ComesAfter };

    ghost sound = { is_sound };

    ghost follows_itself = { comes_after_itself };

    ghost follows_through = { comes_after_through };

    fn sectors(&self) -> u64 {
        (self.bytes.len() / SECTOR) as u64
    }

    fn read(&mut self, sector: u64, to: &mut [u8; 512]) -> Result<(), MediumFault>
        requires { sector < (state_of self.old).size }
        ensures exact { self.new ≡ called self.old Read }
        ensures happens { IsOk result }
        ensures ok { OnOk result (to.new ≡ (state_of self.old).content sector) }
        ensures content { Stays (state_of self.old).content (state_of self.new).content }
        ensures sets { Within (state_of self.new).may_leave (state_of self.old).may_leave }
        ensures passes { Passes Read result (state_of self.old) (state_of self.new) }
        ensures follows { ComesAfter self.old self.new
            × LooksOnly (λ s. s ≡ sector) (state_of self.old) (state_of self.new) }
    {
        self.calls = self.calls.next();
        self.made.add(MediumFault::Read);
        load(&self.bytes, sector, to);
        Ok(())
    }

    fn write(&mut self, sector: u64, from: &[u8; 512]) -> Result<(), MediumFault>
        requires { sector < (state_of self.old).size }
        ensures exact { OnOk result (IsWritten sector from.now self.old self.new) }
        ensures refused { OnErr result (IsNotWritten sector self.old self.new) }
        ensures ok { OnOk result
            (Holds sector from.now (state_of self.old).content (state_of self.new).content) }
        ensures err { OnErr result (Stays (state_of self.old).content (state_of self.new).content
            ⊎ Holds sector from.now (state_of self.old).content (state_of self.new).content) }
        ensures sets { Gains sector from.now
            (state_of self.old).may_leave (state_of self.new).may_leave }
        ensures passes { Passes Write result (state_of self.old) (state_of self.new) }
        ensures follows { ComesAfter self.old self.new }
    {
        self.calls = self.calls.next();
        self.made.add(MediumFault::Write);
        let Ok(()) = write_through(&mut self.file, &mut self.bytes, sector, from) else {
            self.refused.add(MediumFault::Write);
            return Err(MediumFault::Write);
        };
        Ok(())
    }

    fn flush(&mut self) -> Result<(), MediumFault>
        ensures exact { OnOk result (self.new ≡ flushed self.old) }
        ensures refused { OnErr result (self.new ≡ unflushed self.old) }
        ensures ok { OnOk result (Only (state_of self.old).content (state_of self.new).may_leave) }
        ensures content { Stays (state_of self.old).content (state_of self.new).content }
        ensures sets { Within (state_of self.new).may_leave (state_of self.old).may_leave }
        ensures passes { Passes Flush result (state_of self.old) (state_of self.new) }
        ensures follows { ComesAfter self.old self.new }
    {
        self.calls = self.calls.next();
        self.made.add(MediumFault::Flush);
        let Ok(()) = self.file.sync() else {
            self.refused.add(MediumFault::Flush);
            return Err(MediumFault::Flush);
        };
        Ok(())
    }
}
