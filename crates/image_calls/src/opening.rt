//! The first sectors of a device are read.
ghost use Rattle.std.specs.Prelude.{◌≡◌, ◌≢◌, ◌<◌, ◌≤◌, ◌*◌, ◌/◌, ◌++◌, ◌+◌, ◌↔◌};
ghost use Rattle.std.specs.Prelude.{length, IsTrue, take};
ghost use Rattle.image_calls.specs.Reading.{unread, left, IsSound, IsWhole, AsksToRead, HasRead};
ghost use Rattle.image_calls.specs.Reading.{IsUntil, TakesRead, AreNext};
ghost use Rattle.image_calls.specs.Room.{MakesRoom};

use crate::near::near_in;
use crate::reach::Reach;
use crate::read_end::ReadEnd;
use std::alloc::Global;
use std::marker::Model;
use window::{DeviceAsk, DeviceRead, DoneFault, SECTOR};

// How many sectors are read at a time at most.
const MOST: u64 = 240;

/// The first sectors of a device, which are read a run at a time, from sector 0 on.
#[derive(Drop)]
pub struct Opening {
    alloc: Global,
    // Room for all that is read, once that is known: what was read lies at its front.
    bytes: Vec<u8>,
    // How many sectors were read.
    read: u64,
    // How many sectors the device has.
    sectors: u64,
    reach: Reach,
    // How many sectors are read, as far as it is known.
    until: u64,
    // How many the device is reading.
    asked: u32,
}

impl Model for Opening {
    ghost use Rattle.image_calls.specs.Reading.{Reading};

    ghost Value = { Reading };

    ghost use Rattle.image_calls.specs.Inside.{reading_of, Invariant};

    ghost view = { reading_of };

    ghost invariant = { Invariant };
}

impl Opening {
    /// Nothing is read of a device of `sectors` sectors. It takes no memory.
    pub fn new(alloc: Global, sectors: u64, reach: Reach) -> Opening
        ensures { result ≡ unread sectors reach }
    {
        Opening {
            alloc,
            bytes: Vec::new(alloc),
            read: 0,
            sectors,
            reach,
            until: sectors.min(1),
            asked: 0,
        }
    }

    /// How many sectors the device has.
    pub fn sectors(&self) -> u64
        ensures { result ≡ self.now.sectors }
    {
        self.sectors
    }

    /// Whether all is read.
    pub fn is_whole(&self) -> bool
        ensures is { IsTrue result ↔ IsWhole self.now }
        ensures sound { IsSound self.now }
    {
        self.left() == 0
    }

    /// The sectors that the device is to read next, as many as a buffer of `room` sectors has room
    /// for: none while it reads some, or where all is read.
    pub fn next(&mut self, room: u64) -> DeviceAsk
        requires { 0 < room }
        ensures { AsksToRead self.old room result self.new }
    {
        let left = self.left();
        if self.asked != 0 || left == 0 {
            return DeviceAsk::Nothing;
        }
        let count = room.min(left.min(MOST)) as u32;
        self.asked = count;
        DeviceAsk::Read(DeviceRead {
            first: self.read,
            count,
        })
    }

    /// The read that was asked for has ended, good or not: these are its bytes. It stands apart, so
    /// that sector 0 does not lie on the stack under what begins then.
    ///
    /// # Errors
    /// `NothingAsked` where none is under way, and `BadLength` where the bytes are not as many as
    /// those of its sectors. Nothing changes then.
    #[inline(never)]
    pub fn done(&mut self, ok: bool, bytes: &[u8]) -> Result<ReadEnd, DoneFault>
        ensures { HasRead self.old ok bytes.now result self.new }
    {
        if self.asked == 0 {
            return Err(DoneFault::NothingAsked);
        }
        if !ok {
            self.asked = 0;
            return Ok(ReadEnd::Refused);
        }
        self.take(bytes)
    }

    // How many sectors are left to read.
    fn left(&self) -> u64
        ensures is { result ≡ left self.now }
        ensures sound { IsSound self.now }
    {
        self.until - self.read
    }

    // A good read of these bytes has ended. Where there is no memory for what is read, nothing
    // changes.
    fn take(&mut self, bytes: &[u8]) -> Result<ReadEnd, DoneFault>
        requires { self.old.asked ≢ 0 }
        ensures { TakesRead self.old bytes.now result self.new }
    {
        if bytes.len() != SECTOR * self.asked as usize {
            return Err(DoneFault::BadLength);
        }
        let until = self.until_with(bytes);
        if !make_room(self.alloc, &mut self.bytes, self.read, until) {
            return Ok(ReadEnd::NoMemory);
        }
        put(&mut self.bytes, self.read as usize * SECTOR, bytes);
        self.read += u64::from(self.asked);
        self.until = until;
        self.asked = 0;
        Ok(ReadEnd::Taken)
    }

    // How many sectors are read, where these bytes are those that are read next.
    fn until_with(&self, bytes: &[u8]) -> u64
        requires { AreNext self.now bytes.now }
        ensures is { IsUntil self.now.reach self.now.sectors (self.now.near ++ bytes.now) result }
        ensures few { result ≤ 16384 }
        ensures within { length (self.now.near ++ bytes.now) / 512 ≤ result }
        ensures stays { 0 < length self.now.near → result ≡ self.now.until }
    {
        if self.read > 0 {
            return self.until;
        }
        match self.reach {
            Reach::First => self.until,
            Reach::Near => near_in(bytes).min(self.sectors),
        }
    }

    /// What was read of the first sectors.
    pub fn into_near(self) -> Vec<u8>
        ensures { result.items ≡ self.near }
    {
        front_of(self.bytes, self.read)
    }
}

// Makes room for so many sectors, where none was read. Nothing changes where there is no memory.
fn make_room(alloc: Global, bytes: &mut Vec<u8>, read: u64, until: u64) -> bool
    requires { until ≤ 16384 }
    ensures { MakesRoom read until bytes.old.items bytes.new.items result }
{
    if read > 0 {
        return true;
    }
    let Ok(room) = vec![in alloc; 0u8; until as usize * SECTOR] else {
        return false;
    };
    *bytes = room;
    true
}

// Copies these bytes behind the first ones.
fn put(bytes: &mut [u8], at: usize, more: &[u8])
    requires { at + length more.now ≤ length bytes.old }
    ensures { take (at + length more.now) bytes.new ≡ take at bytes.old ++ more.now }
{
    bytes[at..at + more.len()].copy_from_slice(more);
}

// The first of these sectors.
fn front_of(bytes: Vec<u8>, read: u64) -> Vec<u8>
    requires { read ≤ 16384 }
    ensures { result.items ≡ take (512 * read) bytes.items }
{
    let mut front = bytes;
    front.truncate(read as usize * SECTOR);
    front
}
