//! From the words of a command to its exit status.
ghost use Rattle.std.specs.Prelude.{◌≡◌, ◌≤◌, None, IfOk, IfErr, MatchResult};
ghost use Rattle.std.specs.Prelude.{drop, map, string_bytes};
ghost use Rattle.usbdisk.specs.console.Status.{EndsFor, status_of};
ghost use Rattle.usbdisk.specs.images.Program.{
  HasDone,
  HasNoWords,
  HasNotDone,
  IsMadeAs,
  IsMake,
  IsMakeRefused,
  IsNotMade,
  IsObeyed,
  IsProgramRefused,
  IsRefusedFor,
  IsTold,
  IsUntold,
  help_text,
  made_text,
  version_text,
};
ghost use Rattle.usbdisk.specs.images.Opened.{made_in};
ghost use Rattle.device_file.specs.Carried.{AreCalls};
ghost use Rattle.usbdisk.specs.images.Task.{image_wanted, wanted_of};
ghost use Rattle.journal.specs.Formats.{shape_of};

use crate::console::{ArgumentFault, Ended, LeftFile, Refusal, Stopped, words_of, write_out};
use crate::images::exporting::export;
use crate::images::image::{FilePlace, new_file, super_of};
use crate::images::importing::{NewImage, import};
use crate::images::left::LeftFiles;
use crate::images::making::ask_to_be;
use crate::images::migrating::migrate;
use crate::images::showing::show;
use crate::images::task::{ImageTask, NewSizes, Task, read_words};
use device_file::Run;
use journal::Super;
use std::fs::{File, Files};
use std::io::{IsTerminal, Write};
use window::DeviceHolds;

const HELP: &[u8] = b"usbdisk_image make IMAGE --blocks N --slots K --format 1|2 \
[--align SIZE] [--replace]\n\
usbdisk_image show IMAGE\nusbdisk_image migrate IMAGE\n\
usbdisk_image import RAW IMAGE --slots K --format 1|2 [--replace]\n\
usbdisk_image export IMAGE RAW [--replace]\n";

const VERSION: &[u8] = b"usbdisk_image 1.15\n";

/// Does what the words after the program's name ask for, and gives the exit status.
///
/// `make IMAGE --blocks N --slots K --format F` makes an image file, of which no zeros are
/// written, and prints `made`. With `--align A` behind the format its blocks begin at the first
/// multiple of A bytes behind the log. `show IMAGE` tells what is in an image, and writes nothing
/// to it. `migrate IMAGE` brings it to format 2, and prints `migrated` or `already format 2`.
/// `import RAW IMAGE --slots K --format F` makes an image of the blocks of a plain file, and
/// `export IMAGE RAW` copies those of an image to one: they print `imported N blocks` and `exported
/// N blocks`. Where `err` is a terminal, they tell on it how far they are, each 256 MiB.
/// A new file is refused where one is there, but where `--replace` stands behind the words.
/// `--help` prints the commands, and `--version` a line.
pub fn command<R: Files<File = File> + AllocGlobal, O: Write, E: Write + IsTerminal>(
    rt: &R,
    words: &[&str],
    device: &DeviceHolds,
    out: &mut O,
    err: &mut E,
) -> Ended<LeftFiles>
    ensures statuses { result.status ≤ 5 }
    ensures done { result.status ≡ 0 → IsObeyed device.now.bytes (O.contents out.old)
        (O.contents out.new) result.left.file result.left.raw (map (λ word. word.now) words.now) }
    ensures refused { EndsFor result.status (IsRefusedFor device.now.bytes (O.contents out.old)
        (O.contents out.new) result.left.file result.left.raw (map (λ word. word.now) words.now)) }
    ensures calls { AreCalls result.left.file × AreCalls result.left.raw }
{
    match dispatch(rt, words, device, out, err) {
        Ok(left) => {
            left.foresee();
            Ended { status: 0, left }
        }
        Err(stopped) => refuse(stopped, words, err),
    }
}

// Does what the words ask for.
fn dispatch<R: Files<File = File> + AllocGlobal, O: Write, E: Write + IsTerminal>(
    rt: &R,
    words: &[&str],
    device: &DeviceHolds,
    out: &mut O,
    err: &mut E,
) -> Result<LeftFiles, Stopped<LeftFiles>>
    ensures done { IfOk result (λ left. IsObeyed device.now.bytes (O.contents out.old)
        (O.contents out.new) left.file left.raw (map (λ word. word.now) words.now)) }
    ensures refused { IfErr result (λ stopped. IsRefusedFor device.now.bytes (O.contents out.old)
        (O.contents out.new) stopped.left.file stopped.left.raw (map (λ word. word.now) words.now)
        stopped.refusal) }
{
    match read_words(words) {
        Some(task) => do_task(rt, task, device, out, err),
        None => Err(Stopped::from(Refusal::Words)),
    }
}

// Does what a command line asks for.
fn do_task<R: Files<File = File> + AllocGlobal, O: Write, E: Write + IsTerminal>(
    rt: &R,
    task: Task,
    device: &DeviceHolds,
    out: &mut O,
    err: &mut E,
) -> Result<LeftFiles, Stopped<LeftFiles>>
    ensures done { IfOk result (λ left. HasDone device.now.bytes (O.contents out.old)
        (O.contents out.new) left.file left.raw (wanted_of task.entry)) }
    ensures refused { IfErr result (λ stopped. HasNotDone device.now.bytes (O.contents out.old)
        (O.contents out.new) stopped.left.file stopped.left.raw (wanted_of task.entry)
        stopped.refusal) }
{
    match task {
        Task::Image(task) => match do_image(rt, task, device, out) {
            Ok(file) => Ok(LeftFiles::new(file, None)),
            Err(stopped) => Err(Stopped::with(stopped.refusal, LeftFiles::new(stopped.left, None))),
        },
        Task::Import {
            raw,
            image: path,
            options,
        } => import(raw, NewImage { rt, path, options }, out, err),
        Task::Export {
            image,
            raw: path,
            existing,
        } => export(image, FilePlace { rt, path, existing }, device, out, err),
    }
}

// Does what a command line asks for that names one file at most.
#[tactic(auto, using(crate::proofs::Alone::alone_ok, crate::proofs::Alone::alone_err))]
fn do_image<R: Files<File = File> + AllocGlobal, O: Write>(
    rt: &R,
    task: ImageTask,
    device: &DeviceHolds,
    out: &mut O,
) -> Result<LeftFile, Stopped<LeftFile>>
    ensures done { IfOk result (λ back. HasDone device.now.bytes (O.contents out.old)
        (O.contents out.new) back None (image_wanted task.entry)) }
    ensures refused { IfErr result (λ stopped. HasNotDone device.now.bytes (O.contents out.old)
        (O.contents out.new) stopped.left None (image_wanted task.entry) stopped.refusal) }
{
    match task {
        ImageTask::Help => say_help(out),
        ImageTask::Version => say_version(out),
        ImageTask::Show { image } => show(rt, image, device, out),
        ImageTask::Migrate { image } => migrate(rt, image, device, out),
        ImageTask::Make {
            image: path,
            sizes,
            existing,
        } => make(FilePlace { rt, path, existing }, &sizes, out),
    }
}

// Tells the commands.
fn say_help<O: Write>(out: &mut O) -> Result<LeftFile, Stopped<LeftFile>>
    ensures done { IfOk result (λ back. IsTold (O.contents out.old) (O.contents out.new)
        back help_text) }
    ensures refused { IfErr result (λ stopped. IsUntold (O.contents out.old) (O.contents out.new)
        stopped.left help_text stopped.refusal) }
{
    match write_out(out, HELP) {
        Ok(()) => Ok(None),
        Err(_) => Err(Stopped::from(Refusal::Streams)),
    }
}

// Tells the version.
fn say_version<O: Write>(out: &mut O) -> Result<LeftFile, Stopped<LeftFile>>
    ensures done { IfOk result
        (λ back. IsTold (O.contents out.old) (O.contents out.new) back version_text) }
    ensures refused { IfErr result (λ stopped. IsUntold (O.contents out.old) (O.contents out.new)
        stopped.left version_text stopped.refusal) }
{
    match write_out(out, VERSION) {
        Ok(()) => Ok(None),
        Err(_) => Err(Stopped::from(Refusal::Streams)),
    }
}

// Makes an image file, and says so.
#[inline(never)]
fn make<R: Files<File = File> + AllocGlobal, O: Write>(
    place: FilePlace<R>,
    wanted: &NewSizes,
    out: &mut O,
) -> Result<LeftFile, Stopped<LeftFile>>
    ensures done { IfOk result (λ back. IsMake (O.contents out.old) (O.contents out.new) back
        (made_in place.entry) wanted.now) }
    ensures refused { IfErr result (λ stopped. IsMakeRefused (O.contents out.old)
        (O.contents out.new) stopped.left (made_in place.entry) wanted.now stopped.refusal) }
{
    let sizes = super_of(wanted)?;
    match Run::new(place.rt.alloc()) {
        Ok(mut run) => make_with(place, &sizes, &mut run, out),
        Err(_) => Err(Stopped::from(Refusal::NoMemory)),
    }
}

// Makes an image file of these sizes, once all memory is had, and says so.
fn make_with<R: Files<File = File>, O: Write>(
    place: FilePlace<R>,
    sizes: &Super,
    run: &mut Run,
    out: &mut O,
) -> Result<LeftFile, Stopped<LeftFile>>
    ensures done { IfOk result (λ back. IsMadeAs (O.contents out.old) (O.contents out.new) back
        (made_in place.entry) (shape_of sizes.now)) }
    ensures refused { IfErr result (λ stopped. IsNotMade (O.contents out.old)
        (O.contents out.new) stopped.left (made_in place.entry) (shape_of sizes.now)
        stopped.refusal) }
{
    let mut file = match new_file(place.rt, place.path, sizes.sectors(), place.existing) {
        Ok(file) => file,
        Err(refusal) => return Err(Stopped::from(refusal)),
    };
    if let Err(fault) = ask_to_be(&mut file, run, sizes) {
        return Err(Stopped::with(Refusal::File(fault), Some(file)));
    }
    match write_out(out, b"made\n") {
        Ok(()) => Ok(Some(file)),
        Err(_) => Err(Stopped::with(Refusal::Streams, Some(file))),
    }
}

// Writes why a command was refused, where that can be written, and tells how it ended.
fn refuse<E: Write>(stopped: Stopped<LeftFiles>, words: &[&str], err: &mut E) -> Ended<LeftFiles>
    ensures is { result ≡ record { status = status_of stopped.refusal; left = stopped.left } }
    ensures calls { AreCalls stopped.left.file × AreCalls stopped.left.raw }
{
    // A refusal names the second file behind the command's name, or the first.
    let name = match stopped.refusal {
        Refusal::Target(_) => words.get(2),
        _ => words.get(1),
    };
    stopped.left.foresee();
    stopped.report(name.copied(), err)
}

/// Does what the program's arguments ask for, and gives the exit status. Where they are not had, it
/// tells that, and no file is touched. Behind the first sectors of an image the device holds what
/// the caller says, whatever that is.
pub fn run_program<R: Files<File = File> + AllocGlobal, O: Write, E: Write + IsTerminal>(
    rt: &R,
    args: Result<Vec<String>, ArgumentFault>,
    device: &DeviceHolds,
    out: &mut O,
    err: &mut E,
) -> Ended<LeftFiles>
    ensures statuses { result.status ≤ 5 }
    ensures done { result.status ≡ 0 → MatchResult args (λ all. IsObeyed device.now.bytes
        (O.contents out.old) (O.contents out.new) result.left.file result.left.raw
        (drop 1 (map string_bytes all.items))) (λ fault. ⊥) }
    ensures refused { EndsFor result.status (λ refusal. MatchResult args (λ all. IsProgramRefused
        device.now.bytes (O.contents out.old) (O.contents out.new) result.left.file result.left.raw
        (drop 1 (map string_bytes all.items)) refusal) (λ fault. HasNoWords device.now.bytes
        (O.contents out.old) (O.contents out.new) result.left.file result.left.raw fault refusal)) }
    ensures calls { AreCalls result.left.file × AreCalls result.left.raw }
{
    let args = match args {
        Ok(args) => args,
        Err(fault) => return refuse(Stopped::from(Refusal::from(fault)), &[], err),
    };
    match words_of(rt.alloc(), args.as_slice()) {
        Ok(words) => command(rt, words.as_slice(), device, out, err),
        Err(_) => refuse(Stopped::from(Refusal::NoMemory), &[], err),
    }
}
