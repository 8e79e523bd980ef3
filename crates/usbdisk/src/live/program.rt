//! The work of the program that serves an image file line by line.
ghost use Rattle.std.specs.Prelude.{◌≡◌, ◌↔◌, IfOk, IfErr, MatchResult};
ghost use Rattle.std.specs.Prelude.{map, drop, string_bytes};
ghost use Rattle.spec.specs.Packets.{bytes_of};
ghost use Rattle.device_file.specs.Carried.{AreCalls};
ghost use Rattle.usbdisk.specs.console.Status.{EndsFor};
ghost use Rattle.usbdisk.specs.live.Program.{HasDoneLive, HasNoWords, IsLiveOn, IsLiveRefusedFor};
ghost use Rattle.usbdisk.specs.live.Program.{IsLiveStatus, IsProgramRefused, IsStoppedOn};
ghost use Rattle.usbdisk.specs.runner.Live.{IsLiveLine};

use crate::console::{
    ArgumentFault, Ended, LeftFile, LockedFile, Refusal, Stopped, foresee, guard_streams, words_of,
};
use crate::live::serving::serve_file;
use crate::live::starting::DiskOptions;
use crate::live::streams::Streams;
use crate::runner::read_live_words;
use medium::Access;
use std::alloc::Global;
use std::fs::{File, Files};
use std::io::{Read, Write};
use window::DeviceHolds;

/// Serves an image file, line by line of an input, and gives the exit status.
///
/// The words are the image's, behind which `--packet 64` or `--packet 512` may stand: packets have
/// at most that many bytes, 512 where nothing is told. A refusal names the image and the cause on
/// `err`, and a line that is none of a script its number. At status 3, for a fault of the image,
/// the file was asked for nothing. Behind the first sectors of the image the device holds what the
/// caller says, whatever that is.
pub fn live_command<R: Files<File = File> + AllocGlobal, I: Read, O: Write, E: Write>(
    rt: &R,
    words: &[&str],
    device: &DeviceHolds,
    streams: &mut Streams<I, O>,
    err: &mut E,
) -> Ended<LeftFile>
    ensures statuses { IsLiveStatus result.status result.left }
    ensures done { result.status ≡ 0 → HasDoneLive device.now.bytes (O.contents streams.old.out)
        (O.contents streams.new.out) (I.remaining streams.old.input) (I.remaining streams.new.input)
        result.left (map (λ word. word.now) words.now) × (err.new ≡ err.old) }
    ensures words { (result.status ≡ 2) ↔ (IsLiveLine (map (λ word. word.now) words.now) → ⊥) }
    ensures refused { EndsFor result.status (IsLiveRefusedFor device.now.bytes
        (O.contents streams.old.out) (O.contents streams.new.out) (I.remaining streams.old.input)
        (I.remaining streams.new.input) result.left (map (λ word. word.now) words.now)) }
    ensures calls { AreCalls result.left }
{
    match serve_image(rt, words, device, streams) {
        Ok(left) => {
            foresee(&left);
            Ended { status: 0, left }
        }
        Err(stopped) => {
            foresee(&stopped.left);
            stopped.report(words.first().copied(), err)
        }
    }
}

/// Serves the image file that the program's arguments name, and gives the exit status. Where they
/// are not had, it tells that, and no file is touched.
pub fn run_live<R: Files<File = File> + AllocGlobal, I: Read, O: Write, E: Write>(
    rt: &R,
    args: Result<Vec<String>, ArgumentFault>,
    device: &DeviceHolds,
    streams: &mut Streams<I, O>,
    err: &mut E,
) -> Ended<LeftFile>
    ensures statuses { IsLiveStatus result.status result.left }
    ensures done { result.status ≡ 0 → MatchResult args (λ all. HasDoneLive device.now.bytes
        (O.contents streams.old.out) (O.contents streams.new.out) (I.remaining streams.old.input)
        (I.remaining streams.new.input) result.left (drop 1 (map string_bytes all.items)))
        (λ fault. ⊥) × (err.new ≡ err.old) }
    ensures refused { EndsFor result.status (λ refusal. MatchResult args (λ all. IsProgramRefused
        device.now.bytes (O.contents streams.old.out) (O.contents streams.new.out)
        (I.remaining streams.old.input) (I.remaining streams.new.input) result.left
        (drop 1 (map string_bytes all.items)) refusal) (λ fault. HasNoWords
        (O.contents streams.old.out) (O.contents streams.new.out) (I.remaining streams.old.input)
        (I.remaining streams.new.input) result.left fault refusal)) }
    ensures calls { AreCalls result.left }
{
    let args = match args {
        Ok(args) => args,
        Err(fault) => return Stopped::from(Refusal::from(fault)).report(None, err),
    };
    match words_of(rt.alloc(), args.as_slice()) {
        Ok(words) => live_command(rt, words.as_slice(), device, streams, err),
        Err(_) => Stopped::from(Refusal::NoMemory).report(None, err),
    }
}

// Serves what the words ask for. What takes the places of closed standard streams is held until the
// end.
fn serve_image<R: Files<File = File> + AllocGlobal, I: Read, O: Write>(
    rt: &R,
    words: &[&str],
    device: &DeviceHolds,
    streams: &mut Streams<I, O>,
) -> Result<LeftFile, Stopped<LeftFile>>
    ensures done { IfOk result (λ back. HasDoneLive device.now.bytes (O.contents streams.old.out)
        (O.contents streams.new.out) (I.remaining streams.old.input) (I.remaining streams.new.input)
        back (map (λ word. word.now) words.now)) }
    ensures refused { IfErr result (λ stopped. IsLiveRefusedFor device.now.bytes
        (O.contents streams.old.out) (O.contents streams.new.out) (I.remaining streams.old.input)
        (I.remaining streams.new.input) stopped.left (map (λ word. word.now) words.now)
        stopped.refusal) }
{
    let Some((image, size)) = read_live_words(words) else {
        return Err(Stopped::from(Refusal::Words));
    };
    let Some(_streams) = guard_streams(rt) else {
        return Err(Stopped::from(Refusal::NullDevice));
    };
    match device_file::open(rt, image, Access::Change) {
        Ok(file) => serve_opened(rt.alloc(), file, DiskOptions { device, size }, streams),
        Err(fault) => Err(Stopped::from(Refusal::File(fault))),
    }
}

// Serves a file, which comes back.
fn serve_opened<I: Read, O: Write>(
    alloc: Global,
    file: LockedFile,
    options: DiskOptions,
    streams: &mut Streams<I, O>,
) -> Result<LeftFile, Stopped<LeftFile>>
    ensures done { IfOk result (λ back. IsLiveOn options.entry.device.now.bytes
        (O.contents streams.old.out) (O.contents streams.new.out) (I.remaining streams.old.input)
        (I.remaining streams.new.input) back file (bytes_of options.entry.size)) }
    ensures refused { IfErr result (λ stopped. IsStoppedOn options.entry.device.now.bytes
        (O.contents streams.old.out) (O.contents streams.new.out) (I.remaining streams.old.input)
        (I.remaining streams.new.input) stopped.left file (bytes_of options.entry.size)
        stopped.refusal) }
{
    match serve_file(alloc, file, options, streams) {
        Ok(file) => Ok(Some(file)),
        Err(stopped) => Err(Stopped::with(stopped.refusal, Some(stopped.left))),
    }
}
