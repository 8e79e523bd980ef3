//! From the words of a command to its exit status.
ghost use Rattle.std.specs.Prelude.{◌≡◌, ◌⊎◌, ◌≤◌, Some, None, Ok, Err, IfOk, IfErr};
ghost use Rattle.std.specs.Prelude.{MatchResult, OnOk, map, drop, string_bytes};
ghost use Rattle.std.specs.Io.KnownBytes.{Appends};
ghost use Rattle.usbdisk.specs.console.Streams.{AppendsSome};
ghost use Rattle.spec.specs.Packets.{bytes_of};
ghost use Rattle.usbdisk.specs.console.Status.{EndsFor};
ghost use Rattle.usbdisk.specs.runner.Task.{IsCommandLine};
ghost use Rattle.usbdisk.specs.runner.Program.{HasDone, HasNoWords, IsBack, IsFormat};
ghost use Rattle.usbdisk.specs.runner.Program.{IsFormatRefused};
ghost use Rattle.usbdisk.specs.runner.Program.{IsMigrated};
ghost use Rattle.usbdisk.specs.runner.Program.{IsMigration, IsMigrationRefused, IsNotMigrated};
ghost use Rattle.usbdisk.specs.runner.Outcome.{IsPlayed};
ghost use Rattle.usbdisk.specs.runner.Program.{IsPlayRefused, IsRefusedFor, IsRun};
ghost use Rattle.usbdisk.specs.runner.Program.{IsRunRefused, IsSim, IsSimRefused};

use crate::console::{ArgumentFault, Ended, Refusal, Stopped, migration_line, words_of, write_out};
use crate::runner::fault::ScriptError;
use crate::runner::image::{ImageSizes, hold, make_image, open_image, sim_medium};
use crate::runner::script::run_script;
use crate::runner::sim::sim_script;
use crate::runner::task::{Task, read_words};
use bot_machine::PacketSize;
use medium::{FileMedium, Medium};
use std::alloc::Global;
use std::fs;
use std::fs::{File, Files};
use std::io::{Read, Write};

/// The medium of an image file, where one was opened or made.
type LeftImage = Option<FileMedium<File>>;

/// Does what the words after the program's name ask for, and gives the exit status.
///
/// `format IMAGE --blocks N --slots K` makes an image file and prints `formatted`: of format 1, or
/// of that which `--format 1` or `--format 2` behind it tells. `migrate IMAGE` brings an image file
/// to format 2 and prints `migrated`, or `already format 2`. `run IMAGE SCRIPT` plays a script on a
/// disk over an image file; `sim IMAGE SCRIPT` reads an image file into memory, which it leaves
/// alone, and plays a script on a disk over it, which may lose its power. Packets have at most 512
/// bytes in both, or as many as `--packet 64` or `--packet 512` behind it tells.
pub fn command<R: Files<File = File> + AllocGlobal, O: Write, E: Write>(
    rt: &R,
    words: &[&str],
    out: &mut O,
    err: &mut E,
) -> Ended<LeftImage>
    ensures statuses { result.status ≤ 5 }
    ensures done { result.status ≡ 0 → HasDone (O.contents out.old) (O.contents out.new)
        result.left (map (λ word. word.now) words.now) × (err.new ≡ err.old) }
    ensures words { result.status ≡ 2 → IsCommandLine (map (λ word. word.now) words.now) → ⊥ }
    ensures other_words { (IsCommandLine (map (λ word. word.now) words.now) → ⊥)
        → (result.status ≡ 2) ⊎ (result.status ≡ 5) }
    ensures refused { EndsFor result.status (IsRefusedFor (O.contents out.old) (O.contents out.new)
        result.left (map (λ word. word.now) words.now)) }
{
    match dispatch(rt, words, out) {
        Ok(left) => Ended { status: 0, left },
        Err(stopped) => stopped.report(None, err),
    }
}

/// Does what the program's arguments ask for, and gives the exit status. Where they are not had, it
/// tells that, and no file is touched.
pub fn run_program<R: Files<File = File> + AllocGlobal, O: Write, E: Write>(
    rt: &R,
    args: Result<Vec<String>, ArgumentFault>,
    out: &mut O,
    err: &mut E,
) -> Ended<LeftImage>
    ensures statuses { result.status ≤ 5 }
    ensures done { result.status ≡ 0 → MatchResult args (λ all. HasDone (O.contents out.old)
        (O.contents out.new) result.left (drop 1 (map string_bytes all.items))) (λ fault. ⊥)
        × (err.new ≡ err.old) }
    ensures refused { EndsFor result.status (λ refusal. MatchResult args (λ all. IsRefusedFor
        (O.contents out.old) (O.contents out.new) result.left
        (drop 1 (map string_bytes all.items)) refusal) (λ fault. HasNoWords (O.contents out.old)
        (O.contents out.new) result.left fault refusal)) }
{
    let args = match args {
        Ok(args) => args,
        Err(fault) => return Stopped::from(Refusal::from(fault)).report(None, err),
    };
    match words_of(rt.alloc(), args.as_slice()) {
        Ok(words) => command(rt, words.as_slice(), out, err),
        Err(_) => Stopped::from(Refusal::NoMemory).report(None, err),
    }
}

// Does what the words ask for. Its callees keep frames of their own, so that the stack has room for
// one of them and not for all.
fn dispatch<R: Files<File = File> + AllocGlobal, O: Write>(
    rt: &R,
    words: &[&str],
    out: &mut O,
) -> Result<LeftImage, Stopped<LeftImage>>
    ensures done { IfOk result (λ back. HasDone (O.contents out.old) (O.contents out.new) back
        (map (λ word. word.now) words.now)) }
    ensures refused { IfErr result (λ stopped. IsRefusedFor (O.contents out.old)
        (O.contents out.new) stopped.left (map (λ word. word.now) words.now) stopped.refusal) }
{
    match read_words(rt.alloc(), words)? {
        Task::Format { image, sizes } => make(rt, image, sizes, out),
        Task::Migrate { image } => migrate(rt, image, out),
        Task::Run {
            image,
            script,
            size,
        } => run(rt, image, script, size, out),
        Task::Sim {
            image,
            script,
            size,
        } => match sim(rt, image, script, size, out) {
            Ok(()) => Ok(None),
            Err(refusal) => Err(Stopped::from(refusal)),
        },
    }
}

// Makes an image file, and says so.
#[inline(never)]
fn make<R: Files<File = File> + AllocGlobal, O: Write>(
    rt: &R,
    image: &str,
    sizes: ImageSizes,
    out: &mut O,
) -> Result<LeftImage, Stopped<LeftImage>>
    ensures done { IfOk result (λ back. IsFormat (O.contents out.old) (O.contents out.new) back
        image.now sizes.format sizes.blocks sizes.slots) }
    ensures refused { IfErr result (λ stopped. IsFormatRefused (O.contents out.old)
        (O.contents out.new) stopped.left image.now sizes.format sizes.blocks sizes.slots
        stopped.refusal) }
{
    let medium = make_image(rt, image, sizes)?;
    say_done(medium, b"formatted\n", out)
}

// Says what was done to a medium, and gives it back.
fn say_done<M: Medium, O: Write>(
    medium: M,
    text: &[u8],
    out: &mut O,
) -> Result<Option<M>, Stopped<Option<M>>>
    ensures done { IfOk result (λ back. (back ≡ Some medium)
        × Appends (O.contents out.old) (O.contents out.new) text.now) }
    ensures refused { IfErr result (λ stopped. (stopped.left ≡ Some medium)
        × (stopped.refusal ≡ Refusal.FileFailed)
        × AppendsSome (O.contents out.old) (O.contents out.new) text.now) }
{
    match write_out(out, text) {
        Ok(()) => Ok(Some(medium)),
        Err(_) => Err(Stopped::with(Refusal::FileFailed, Some(medium))),
    }
}

// Brings an image file to format 2, and says whether it was of format 1.
#[inline(never)]
fn migrate<R: Files<File = File> + AllocGlobal, O: Write>(
    rt: &R,
    image: &str,
    out: &mut O,
) -> Result<LeftImage, Stopped<LeftImage>>
    ensures done { IfOk result (λ back.
        IsMigration (O.contents out.old) (O.contents out.new) back image.now) }
    ensures refused { IfErr result (λ stopped. IsMigrationRefused (O.contents out.old)
        (O.contents out.new) stopped.left image.now stopped.refusal) }
{
    let _streams = hold(rt)?;
    let medium = open_image(rt, image)?;
    migrate_medium(medium, out)
}

// Brings a medium to format 2, says whether it was of format 1, and gives the medium back.
fn migrate_medium<M: Medium, O: Write>(
    mut medium: M,
    out: &mut O,
) -> Result<Option<M>, Stopped<Option<M>>>
    ensures done { IfOk result (IsBack (λ back. IsMigrated (O.contents out.old) (O.contents out.new)
        M.state medium back × M.follows medium back)) }
    ensures refused { IfErr result (λ stopped. IsBack (λ back. IsNotMigrated (O.contents out.old)
        (O.contents out.new) M.state medium back stopped.refusal × M.follows medium back)
        stopped.left) }
{
    match recovery::migrate(&mut medium) {
        Ok((_, was_one)) => say_done(medium, migration_line(was_one), out),
        Err(fault) => Err(Stopped::with(Refusal::ImageFault(fault), Some(medium))),
    }
}

// Plays a script file on a disk over an image file, with packets of a size.
#[inline(never)]
fn run<R: Files<File = File> + AllocGlobal, O: Write>(
    rt: &R,
    image: &str,
    script: &str,
    size: PacketSize,
    out: &mut O,
) -> Result<LeftImage, Stopped<LeftImage>>
    ensures done { IfOk result (λ back.
        IsRun (O.contents out.old) (O.contents out.new) back image.now (bytes_of size)) }
    ensures refused { IfErr result (λ stopped. IsRunRefused (O.contents out.old)
        (O.contents out.new) stopped.left image.now (bytes_of size) stopped.refusal) }
{
    let _streams = hold(rt)?;
    let medium = open_image(rt, image)?;
    let Ok(mut script) = fs::open(rt, script) else {
        return Err(Stopped::with(Refusal::FileFailed, Some(medium)));
    };
    play_on(rt.alloc(), medium, &mut script, out, size)
}

// Plays a script on a disk over a medium, and gives the medium back.
fn play_on<M: Medium, R: Read, O: Write>(
    alloc: Global,
    medium: M,
    script: &mut R,
    out: &mut O,
    size: PacketSize,
) -> Result<Option<M>, Stopped<Option<M>>>
    ensures done { IfOk result (IsBack (λ back. IsPlayed M.state (bytes_of size)
        (R.remaining script.old) (O.contents out.old) (O.contents out.new) medium back
        × M.follows medium back)) }
    ensures refused { IfErr result (λ stopped. IsBack (λ back. IsPlayRefused M.state
        (bytes_of size) (R.remaining script.old) (O.contents out.old) (O.contents out.new) medium
        back stopped.refusal × M.follows medium back) stopped.left) }
{
    match run_script(alloc, medium, script, out, size) {
        Ok(medium) => Ok(Some(medium)),
        Err(ScriptError { fault, medium }) => Err(Stopped::with(
            Refusal::from(fault),
            Some(medium),
        )),
    }
}

// Plays a script file on a disk over a copy of an image file, with packets of a size.
#[inline(never)]
fn sim<R: Files<File = File> + AllocGlobal, O: Write>(
    rt: &R,
    image: &str,
    script: &str,
    size: PacketSize,
    out: &mut O,
) -> Result<(), Refusal>
    ensures done { OnOk result
        (IsSim (O.contents out.old) (O.contents out.new) None (bytes_of size)) }
    ensures refused { IfErr result
        (IsSimRefused (O.contents out.old) (O.contents out.new) None (bytes_of size)) }
{
    let _streams = hold(rt)?;
    let medium = sim_medium(rt, image)?;
    let Ok(mut script) = fs::open(rt, script) else {
        return Err(Refusal::FileFailed);
    };
    match sim_script(rt.alloc(), medium, &mut script, out, size) {
        Ok(_) => Ok(()),
        Err(ScriptError { fault, medium: _ }) => Err(Refusal::from(fault)),
    }
}
