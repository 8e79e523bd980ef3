//! A disk over an open file, as a player of events.
ghost use Rattle.std.specs.Prelude.{◌≡◌, ◌⊎◌, ◌*◌, length};
ghost use Rattle.bot_machine.specs.Fitting.{IsWithin};
ghost use Rattle.usbdisk.specs.live.Missing.{medium_of, window_of};
ghost use Rattle.usbdisk.specs.live.Playing.{SeesRead, MissesRead, Prepares, PlaysReady};
ghost use Rattle.usbdisk.specs.live.Ready.{Foresees};

use crate::live::file::FileWindow;
use crate::live::missing::missing_for;
use crate::runner::Player;
use bot_machine::{Answer, Disk, Event, PacketSize, answer_to};
use device_file::{DeviceFile, FileFault};
use std::marker::Model;
use window::SECTOR;

/// The most bytes that one packet has read of a file: 240 sectors of 512.
pub const TRANSFER: usize = 122_880;

/// A disk over a file of any size. Before a packet whose blocks are not in memory it reads them,
/// and behind each event the file carries out what the event sent, before it is answered.
///
/// A packet of which the file cannot read the blocks is played all the same: the READ ends with a
/// medium error (sense 3/11/00).
#[derive(Drop)]
pub struct FileDisk<D: DeviceFile> {
    disk: Disk<FileWindow<D>>,
    // The room for what is read.
    bytes: Vec<u8>,
}

impl<D: DeviceFile> Model for FileDisk<D> {
    ghost use Rattle.std.specs.Prelude.{◌≡◌, length};
    ghost use Rattle.usbdisk.specs.live.Missing.{DiskOn};

    ghost Value = { DiskOn D };

    ghost view = { λ p. p.disk };

    ghost invariant = { λ p. length p.bytes.items ≡ 122880 };
}

impl<D: DeviceFile> FileDisk<D> {
    /// This disk, with room for what one packet has read: 240 sectors of 512 bytes.
    pub fn new(disk: Disk<FileWindow<D>>, bytes: Vec<u8>) -> FileDisk<D>
        requires { length bytes.items ≡ 122880 }
        ensures { result ≡ disk }
    {
        FileDisk { disk, bytes }
    }

    /// The call that the file refused when it was last asked to carry out what waited.
    pub fn fault(&self) -> Option<FileFault>
        ensures { result ≡ (medium_of self.now).fault }
    {
        self.disk.medium().fault()
    }

    /// Gives the file back, with all that it was asked.
    pub fn into_file(self) -> D
        ensures { result ≡ (medium_of self).file }
    {
        self.disk.into_medium().into_file()
    }
}

// Does nothing. The law of the outbox says of all that may come what it is for the file.
fn foresee<D: DeviceFile>(disk: &Disk<FileWindow<D>>)
    ensures { Foresees (window_of disk.now) }
{
    let _waiting = disk.medium().window().waiting();
}

// Reads sectors of the file, and shows them. Where the file refuses that, nothing is shown.
fn show_read<D: DeviceFile>(disk: &mut Disk<FileWindow<D>>, first: u64, count: u32, to: &mut [u8])
    requires { length to.old ≡ 512 * count }
    ensures { SeesRead D.told D.at_once D.holds D.refuses disk.old first count disk.new
        ⊎ MissesRead D.told D.at_once D.holds D.refuses disk.old first count disk.new }
{
    match disk.medium().read_file(first, to) {
        Ok(()) => {
            disk.show(first, to);
        }
        Err(_) => {}
    }
}

// Makes the disk ready for an event: reads of the file what a packet wants, and shows it.
fn prepare<D: DeviceFile>(disk: &mut Disk<FileWindow<D>>, bytes: &mut [u8], event: &Event)
    requires { length bytes.old ≡ 122880 }
    ensures { Prepares D.told D.at_once D.holds D.refuses disk.old event.now disk.new }
{
    let Event::Out(packet) = event else {
        return;
    };
    let Some(read) = missing_for(disk, packet.as_slice()) else {
        return;
    };
    let to = &mut bytes[..read.count as usize * SECTOR];
    show_read(disk, read.first, read.count, to);
}

// Plays an event for which the disk is ready, and has the file carry out what waits.
fn play_ready<D: DeviceFile>(disk: &mut Disk<FileWindow<D>>, event: &Event) -> Answer
    requires { IsWithin disk.old.line.packet_size event.now }
    ensures { PlaysReady D.told D.at_once D.holds D.refuses disk.old event.now result disk.new }
{
    foresee(disk);
    let answer = answer_to(disk, event);
    disk.pop();
    answer
}

impl<D: DeviceFile> Player for FileDisk<D> {
    ghost use Rattle.usbdisk.specs.runner.Played.{packets_of};
    ghost use Rattle.usbdisk.specs.live.Playing.{AnswersThrough, IsUnanswered};
    ghost use Rattle.usbdisk.specs.live.FileLaws.{file_plays};

    ghost goes = { AnswersThrough D.told D.at_once D.holds D.refuses };

    ghost stops = { IsUnanswered D.told D.at_once D.holds D.refuses };

    ghost most = { packets_of };

    ghost laws = { file_plays D.told D.at_once D.holds D.refuses };

    fn longest_packet(&self) -> PacketSize {
        match self.disk.packet_size() {
            64 => PacketSize::Full64,
            _ => PacketSize::High512,
        }
    }

    // It has no answer where the file refused a call that it sent.
    fn play(&mut self, event: &Event) -> Option<Answer> {
        prepare(&mut self.disk, self.bytes.as_mut_slice(), event);
        let answer = play_ready(&mut self.disk, event);
        if let Some(_) = self.disk.medium().fault() {
            return None;
        }
        Some(answer)
    }
}
