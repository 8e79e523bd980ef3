//! A medium that reads on demand, and an outbox for the device behind it.
ghost use Rattle.std.specs.Prelude.{◌≡◌, ◌≢◌, ◌⊎◌, ◌+◌, ◌*◌, ◌/◌, ◌<◌, ◌≤◌, ◌%◌, ◌↔◌, ℕ, length};
ghost use Rattle.std.specs.Prelude.{true, false, IfOk, IsErrOf, IsTrue};
ghost use Rattle.medium.specs.Moments.{IsFlushed};
ghost use Rattle.medium.specs.Writes.{sector_of};
ghost use Rattle.window.specs.OutboxMedium.{first_of};
ghost use Rattle.window.specs.Runs.{AsksFirst};
ghost use Rattle.window.specs.Window.{Window, state_of, fresh, without_first, ComesAfter};
ghost use Rattle.window.specs.Window.{CoversDevice, IsServed, HasPlace, IsShown, is_in_sight};

use crate::ask::DeviceAsk;
use crate::call::{DeviceCall, SectorWrite};
use crate::holds::DeviceHolds;
use crate::memory::{keep, load};
use crate::outbox::{Kind, Outbox};
use crate::pane::Pane;
use crate::sectors::{SECTOR, Sectors};
use crate::story::{Event, Opening, Story};
use medium::{Inlet, Medium, MediumFault, Outlet};
use std::alloc::Global;
use std::marker::Model;
use thiserror::Error;

/// Why no medium was made.
#[derive(Error, Clone, Copy, Debug, PartialEq, Eq)]
pub enum WindowError {
    #[error("the first sectors are none, no whole ones, or more than the device has")]
    BadLength = 1,
    #[error("out of memory")]
    NoMemory = 2,
}

/// For how much a medium takes memory.
#[derive(Clone, Copy)]
pub struct Reserve {
    /// How many sectors it shows at a time at most.
    pub span: u32,
    /// How many writes and flushes its outbox has room for.
    pub room: usize,
}

/// The first sectors of a device in memory, room for some of the others, and an outbox: every
/// write and every flush, in order, until it is taken out and carried out on the device.
///
/// Reads of the first sectors, and of those that were shown last, are answered from memory. Any
/// other read is refused, and so are a write and a flush for which the outbox has no room; they
/// change nothing then. After `new` no call takes memory, and what was taken is the same for every
/// size of the device.
#[derive(Drop)]
pub struct WindowMedium {
    near: Sectors,
    size: u64,
    pane: Pane,
    outbox: Outbox,
    story: Story,
}

impl Model for WindowMedium {
    ghost use Rattle.window.specs.Window.{Window};

    ghost Value = { Window };

    ghost use Rattle.window.specs.WindowView.{view_of, Invariant};

    ghost view = { view_of };

    ghost invariant = { Invariant };
}

impl WindowMedium {
    /// A medium of a device of `size` sectors, of which the first hold these bytes and the others
    /// what it holds, all durably.
    ///
    /// # Errors
    /// `BadLength` where the bytes are none, no whole sectors, or more than the device has, and
    /// otherwise `NoMemory` where the room could not be had.
    pub fn new(
        alloc: Global,
        near: Vec<u8>,
        size: u64,
        device: &DeviceHolds,
        reserve: Reserve,
    ) -> Result<WindowMedium, WindowError>
        ensures ok { IfOk result (λ m.
            m ≡ fresh size near.items device.now.bytes reserve.span reserve.room) }
        ensures flushed { IfOk result (λ m. IsFlushed (state_of m)) }
        ensures length { IsErrOf result WindowError.BadLength
            ↔ ((length near.items ≡ 0) ⊎ (length near.items % 512 ≢ 0)
            ⊎ (512 * size < length near.items)) }
    {
        if near.len() == 0 || near.len() % SECTOR != 0 || (near.len() / SECTOR) as u64 > size {
            return Err(WindowError::BadLength);
        }
        let Ok(outbox) = Outbox::with_room(alloc, reserve.room) else {
            return Err(WindowError::NoMemory);
        };
        let Ok(bytes) = vec![in alloc; 0u8; reserve.span as usize * SECTOR] else {
            return Err(WindowError::NoMemory);
        };
        let near = Sectors { bytes: near };
        let opening = Opening { near, size };
        let story = Story::of(&Event::Began(&opening, device));
        Ok(WindowMedium {
            near: opening.near,
            size,
            pane: Pane {
                sectors: Sectors { bytes },
                from: 0,
                held: 0,
            },
            outbox,
            story,
        })
    }

    /// Shows these sectors as the device holds them, in place of those that were shown before. What
    /// waits in the outbox is laid over: a read finds what the device holds when it has carried out
    /// all. Where the bytes are as it held them, nothing else changes. It is no call of a medium.
    ///
    /// It answers false, and nothing changes, where the bytes are no whole sectors, more than there
    /// is room for, or not all of them of the device and behind the first ones.
    pub fn fill(&mut self, first: u64, bytes: &[u8]) -> bool
        ensures { IsShown first bytes.now result self.old self.new }
    {
        if !self.has_place_for(first, bytes) {
            return false;
        }
        self.pane.fill(first, bytes);
        self.pane.lay_over(&self.outbox);
        self.story = Story::of(&Event::Shown(&self.story, &self.pane));
        true
    }

    // Whether these bytes may be shown from this sector on: they are whole sectors, no more than
    // there is room for, all of the device and behind the first ones.
    fn has_place_for(&self, first: u64, bytes: &[u8]) -> bool
        ensures { IsTrue result ↔ HasPlace first bytes.now self.now }
    {
        if bytes.len() % SECTOR != 0 || bytes.len() > self.pane.sectors.bytes.len() {
            return false;
        }
        let count = (bytes.len() / SECTOR) as u64;
        self.near() <= first && count <= self.size && first <= self.size - count
    }

    /// How many of the first sectors lie in memory.
    pub fn near(&self) -> u64
        ensures { result ≡ self.now.near }
    {
        (self.near.bytes.len() / SECTOR) as u64
    }

    /// Whether a read finds this sector in memory.
    pub fn has(&self, sector: u64) -> bool
        ensures { result ≡ is_in_sight self.now sector }
    {
        sector < self.near() || self.pane.has(sector)
    }

    /// Whether reads find all of these sectors among those that were shown.
    pub fn holds(&self, first: u64, count: u64) -> bool
        ensures all { result ≡ true → (s : ℕ) → first ≤ s → s < first + count
            → is_in_sight self.now s ≡ true }
        ensures some { result ≡ false → (0 < count)
            × (self.now.from ≤ first → self.now.from + self.now.held < first + count) }
    {
        count == 0 || (self.pane.has(first) && count <= self.pane.held - (first - self.pane.from))
    }

    /// Takes the first call out of the outbox. It is no call of a medium: content, moments and what
    /// a cut may leave stay.
    pub fn take(&mut self) -> Option<DeviceCall>
        ensures first { result ≡ first_of self.old.outbox }
        ensures rest { self.new ≡ without_first self.old }
    {
        let call = self.first()?;
        self.pop();
        Some(call)
    }

    /// The call that waits first.
    pub fn first(&self) -> Option<DeviceCall>
        ensures { result ≡ first_of self.now.outbox }
    {
        match self.outbox.get(0) {
            Some(place) => Some(place.call()),
            None => None,
        }
    }

    /// What a device is to do for what waits first: nothing where no call waits, a flush, or the
    /// longest run of writes to neighbouring sectors for which the buffer has room. Their bytes go
    /// to its front, by one copy, or by two where the memory of the outbox ends within them. All
    /// waits still.
    pub fn ask(&self, to: &mut [u8]) -> DeviceAsk
        ensures { AsksFirst self.now.outbox to.old result to.new }
    {
        self.outbox.ask(to)
    }

    /// How many calls wait in the outbox.
    ///
    /// Whatever calls of a medium are made from here on: a device that has carried out what was
    /// sent until now, and any first part of what is sent from now on, is in a state that the
    /// medium was in since. And none of these calls is refused, as long as the writes and flushes
    /// among them have room beside what waits now and each read names a sector that is in memory or
    /// was shown.
    pub fn waiting(&self) -> usize
        ensures is { result ≡ length self.now.outbox }
        ensures most { result ≤ self.now.room }
        ensures device { (new : Window) → ComesAfter self.now new → CoversDevice self.now new }
        ensures served { (new : Window) → ComesAfter self.now new → IsServed self.now new }
    {
        self.outbox.len()
    }
}

impl Medium for WindowMedium {
    ghost use Rattle.std.specs.Prelude.{◌≡◌, ◌⊎◌, ◌<◌, ◌/◌, ◌↔◌, true, length, IsTrue};
    ghost use Rattle.std.specs.Prelude.{IsOk, is_ok, OnOk, OnErr};
    ghost use Rattle.medium.specs.Medium.{Stays, Holds, Within, Gains, Only, Passes, LooksOnly};
    ghost use Rattle.medium.specs.Range.{AreSectors, ReadsAtOnce};
    ghost use Rattle.medium.specs.declared.fault.MediumFault.TheVariants.{Read, Write, Flush};
    ghost use Rattle.window.specs.Window.{state_of, fits, reads, misses, gives, refuses};
    ghost use Rattle.window.specs.Window.{ComesAfter, AreShown, is_in_sight, reads_from};
    ghost use Rattle.window.specs.WindowLaws.{is_sound, comes_after_itself, comes_after_through};
    ghost use Rattle.window.specs.declared.call.DeviceCall.TheVariants as call;

    ghost state = { state_of };

    ghost follows = { ComesAfter };

    ghost sound = { is_sound };

    ghost follows_itself = { comes_after_itself };

    ghost follows_through = { comes_after_through };

    fn sectors(&self) -> u64 {
        self.size
    }

    fn read(&mut self, sector: u64, to: &mut [u8; 512]) -> Result<(), MediumFault>
        requires { sector < (state_of self.old).size }
        ensures exact { OnOk result (self.new ≡ reads self.old sector) }
        ensures refused { OnErr result (self.new ≡ misses self.old sector) }
        ensures happens { is_ok result ≡ is_in_sight self.old sector }
        ensures ok { OnOk result (to.new ≡ (state_of self.old).content sector) }
        ensures content { Stays (state_of self.old).content (state_of self.new).content }
        ensures sets { Within (state_of self.new).may_leave (state_of self.old).may_leave }
        ensures passes { Passes Read result (state_of self.old) (state_of self.new) }
        ensures follows { ComesAfter self.old self.new
            × LooksOnly (λ s. s ≡ sector) (state_of self.old) (state_of self.new) }
    {
        if !self.has(sector) {
            self.story = Story::of(&Event::Missed(&self.story, sector));
            return Err(MediumFault::Read);
        }
        self.story = Story::of(&Event::Read(&self.story, sector));
        load(&self.near, &self.pane, sector, to);
        Ok(())
    }

    fn read_at_once(&mut self, sector: u64, to: &mut [u8]) -> bool
        requires { AreSectors sector (length to.old) (state_of self.old).size }
        ensures exact { result ≡ true
            → self.new ≡ reads_from self.old sector (length to.old / 512) }
        ensures happens { IsTrue result ↔ AreShown self.old sector (length to.old / 512) }
        ensures reads { ReadsAtOnce state_of ComesAfter result sector (length to.old / 512) to.new
            self.old self.new }
    {
        let count = (to.len() / SECTOR) as u64;
        if !self.pane.has_from(sector, count) {
            return false;
        }
        self.story = Story::of(&Event::ReadFrom(&self.story, sector, count));
        self.pane.load(sector, to);
        true
    }

    #[inline]
    fn write(&mut self, sector: u64, from: &[u8; 512]) -> Result<(), MediumFault>
        requires { sector < (state_of self.old).size }
        ensures exact { OnOk result (self.new
            ≡ gives self.old (call.Write (record { sector = sector; block = from.now }))) }
        ensures refused { OnErr result (self.new
            ≡ refuses self.old (call.Write (record { sector = sector; block = from.now }))) }
        ensures happens { is_ok result ≡ fits self.old }
        ensures ok { OnOk result
            (Holds sector from.now (state_of self.old).content (state_of self.new).content) }
        ensures err { OnErr result (Stays (state_of self.old).content (state_of self.new).content
            ⊎ Holds sector from.now (state_of self.old).content (state_of self.new).content) }
        ensures sets { Gains sector from.now
            (state_of self.old).may_leave (state_of self.new).may_leave }
        ensures passes { Passes Write result (state_of self.old) (state_of self.new) }
        ensures follows { ComesAfter self.old self.new }
    {
        if self.outbox.len() >= self.outbox.room() {
            let call = DeviceCall::Write(SectorWrite {
                sector,
                block: *from,
            });
            self.story = Story::of(&Event::Refused(&self.story, &call));
            return Err(MediumFault::Write);
        }
        keep(&mut self.near, &mut self.pane, sector, from);
        let call = DeviceCall::Write(SectorWrite {
            sector,
            block: *from,
        });
        self.story = Story::of(&Event::Gave(&self.story, &call));
        self.outbox.push(Kind::Write(sector), from);
        Ok(())
    }

    fn flush(&mut self) -> Result<(), MediumFault>
        ensures exact { OnOk result (self.new ≡ gives self.old call.Flush) }
        ensures refused { OnErr result (self.new ≡ refuses self.old call.Flush) }
        ensures happens { is_ok result ≡ fits self.old }
        ensures ok { OnOk result (Only (state_of self.old).content (state_of self.new).may_leave) }
        ensures content { Stays (state_of self.old).content (state_of self.new).content }
        ensures sets { Within (state_of self.new).may_leave (state_of self.old).may_leave }
        ensures passes { Passes Flush result (state_of self.old) (state_of self.new) }
        ensures follows { ComesAfter self.old self.new }
    {
        if self.outbox.len() >= self.outbox.room() {
            self.story = Story::of(&Event::Refused(&self.story, &DeviceCall::Flush));
            return Err(MediumFault::Flush);
        }
        self.story = Story::of(&Event::Gave(&self.story, &DeviceCall::Flush));
        self.outbox.push(Kind::Flush, &[0; 512]);
        Ok(())
    }
}

// What stands over a medium lends it out by no `&mut`, and takes calls out of it by this trait.
impl Outlet for WindowMedium {
    ghost use Rattle.std.specs.Prelude.{◌≡◌};
    ghost use Rattle.window.specs.Window.{without_first};

    ghost given = { λ old new. new ≡ without_first old };

    fn pop(&mut self) {
        self.story = Story::of(&Event::Took(&self.story, &self.outbox));
        self.outbox.pop_front();
    }
}

// And shows it sectors by this one.
impl Inlet for WindowMedium {
    ghost use Rattle.window.specs.Window.{IsShown};

    ghost shown = { IsShown };

    fn show(&mut self, first: u64, bytes: &[u8]) -> bool {
        self.fill(first, bytes)
    }
}
