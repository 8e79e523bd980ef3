//! Whole runs of bytes of a file that may take or give few of them by one call.
ghost use Rattle.std.specs.Prelude.{◌≡◌, ◌<◌, ◌+◌, ◌^◌, ◌++◌, length, OnOk, OnErr, [], ◌∷◌, IfOk};
ghost use Rattle.medium.specs.FileStory.{IsPut, MayPut, IsRead, Calls, HoldsFirst, IsMeasured};
ghost use Rattle.medium.specs.FileStory.{AreGiven, IsMissed};
ghost use Rattle.medium.specs.declared.file_call.FileCall.TheVariants.{Lock, Resize};

use crate::told_file::ToldFile;
use std::io;
use std::io::{Error, ErrorKind};

/// Locks a file, and tells how many bytes it has.
pub(crate) fn lock_and_measure<S: ToldFile>(file: &mut S) -> io::Result<u64>
    ensures { IfOk result (λ bytes. IsMeasured bytes (S.told file.old) (S.told file.new)) }
{
    file.lock()?;
    file.measure()
}

/// Locks a file, and only then empties it.
pub(crate) fn lock_and_empty<S: ToldFile>(file: &mut S) -> io::Result<()>
    ensures path { OnOk result ((S.told file.new).path ≡ (S.told file.old).path) }
    ensures asked { OnOk result ((S.told file.new).asked
        ≡ (S.told file.old).asked ++ Lock ∷ Resize 0 ∷ []) }
    ensures size { OnOk result ((S.told file.new).size ≡ 0) }
{
    file.lock()?;
    file.resize(0)
}

/// Reads the first bytes of a file, as many as there is room for.
pub(crate) fn read_whole<S: ToldFile>(file: &mut S, to: &mut [u8]) -> io::Result<()>
    requires { length to.old < 2 ^ 63 }
    ensures length { length to.new ≡ length to.old }
    ensures reads { Calls IsRead (S.told file.old) (S.told file.new) }
    ensures size { (S.told file.new).size ≡ (S.told file.old).size }
    ensures holds { OnOk result (HoldsFirst to.new (S.told file.new)) }
{
    let mut done = 0;
    for _ in 0..u64::MAX {
        if done == to.len() {
            return Ok(());
        }
        match file.read_at(&mut to[done..], done as u64) {
            Ok(0) => return Err(Error::from(ErrorKind::UnexpectedEof)),
            Ok(count) => done += count,
            Err(error) if error.kind() == ErrorKind::Interrupted => {}
            Err(error) => return Err(error),
        }
    }
    Err(Error::from(ErrorKind::Interrupted))
}

/// Looks at what a file holds from this place on, as many bytes as there is room for.
///
/// # Errors
///
/// The system refused a look, or the file ends before. The bytes may be any then.
pub fn look_whole<S: ToldFile>(file: &S, to: &mut [u8], at: u64) -> io::Result<()>
    requires { at + length to.old < 2 ^ 63 }
    ensures length { length to.new ≡ length to.old }
    ensures given { OnOk result (AreGiven (S.told file.now).looks at to.new) }
    ensures missed { OnErr result (IsMissed (S.told file.now).looks at (length to.old)) }
{
    let mut done = 0;
    for turn in 0..u64::MAX {
        if done == to.len() {
            return Ok(());
        }
        match file.look_at(&mut to[done..], at + done as u64) {
            Ok(0) => return Err(Error::from(ErrorKind::UnexpectedEof)),
            Ok(count) => done += count,
            Err(error) if error.kind() == ErrorKind::Interrupted => {}
            Err(error) => return Err(error),
        }
    }
    Err(Error::from(ErrorKind::Interrupted))
}

/// Writes these bytes from this place on, all of them.
///
/// # Errors
///
/// The system refused a write, or took nothing. Any part of the bytes may be written.
pub fn put<S: ToldFile>(file: &mut S, bytes: &[u8], at: u64) -> io::Result<()>
    requires some { 0 < length bytes.now }
    requires inside { at + length bytes.now < 2 ^ 63 }
    ensures ok { OnOk result (IsPut at bytes.now (S.told file.old) (S.told file.new)) }
    ensures err { OnErr result (MayPut at (length bytes.now) (S.told file.old) (S.told file.new)) }
{
    let mut done = 0;
    for _ in 0..u64::MAX {
        if done == bytes.len() {
            return Ok(());
        }
        match file.write_at(&bytes[done..], at + done as u64) {
            Ok(0) => return Err(Error::from(ErrorKind::WriteZero)),
            Ok(count) => done += count,
            Err(error) if error.kind() == ErrorKind::Interrupted => {}
            Err(error) => return Err(error),
        }
    }
    Err(Error::from(ErrorKind::Interrupted))
}
