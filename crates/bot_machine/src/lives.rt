//! One life after another on the same medium. This module is about a disk that can lose power, over
//! the simulated medium, which alone can be cut. A controller needs none of it.
ghost use Rattle.std.specs.Prelude.{◌≡◌, ◌<◌, [], ◌∷◌, None, Some, IfOk, IfErr};
ghost use Rattle.medium.specs.Sim.{IsCut, IsFused, IsFailing, ComesAfter};
ghost use Rattle.medium.specs.Writes.{keeps};
ghost use Rattle.spec.specs.Lives.{plays, cuts, arms, fails};
ghost use Rattle.bot_machine.specs.Lifetimes.{AreNew};
ghost use Rattle.bot_machine.specs.Device.{device_by, device_of};
ghost use Rattle.bot_machine.specs.Fitting.{IsWithin};
ghost use Rattle.spec.specs.declared.packet_size.PacketSize.TheVariants.{High512};

mod disk_state;
mod life;
mod lifetimes;

use crate::lives::disk_state::DiskState;
use crate::{Identity, Retiring, StartError, StartFault};
pub use life::Life;
pub use lifetimes::{DiskSetup, run_lives, run_lives_by, run_lives_with};
use medium::{Kept, SimMedium};
use spec::{Answer, Event, PacketSize};
use std::alloc::Global;
use std::marker::Model;

/// Lives of a disk over a medium in memory, call by call. In a life a disk is started, events come
/// to it, and the power is cut. A fuse that was armed may let the power go before, in the start or
/// in an event: every answer from that event on is `Off`.
#[derive(Drop)]
pub struct Lives {
    identity: Identity,
    size: PacketSize,
    retiring: Retiring,
    // There is one, but within a call.
    state: Option<DiskState>,
}

impl Model for Lives {
    ghost use Rattle.std.specs.Prelude.{◌≢◌, None};
    ghost use Rattle.bot_machine.specs.LivesValue.{LivesValue, disk_state_in, HasPackets};

    ghost Value = { LivesValue };

    ghost use Rattle.bot_machine.specs.Device.{device_by};

    ghost view = { λ l. record {
      device = device_by l.identity l.size l.retiring;
      state = disk_state_in l.state;
    } };

    ghost use Rattle.spec.specs.Packets.{bytes_of};

    ghost invariant = { λ l.
        (l.state ≢ None) × HasPackets (bytes_of l.size) (disk_state_in l.state) };
}

impl Lives {
    ghost use Rattle.bot_machine.specs.LivesValue.{medium_in, AwaitsEvent};
    ghost use Rattle.bot_machine.specs.LivesValue.{LivesGoOn, LivesRefuseStart, LivesAnswer};
    ghost use Rattle.bot_machine.specs.LivesValue.{LifeBegins, DiskAnswers};
    ghost use Rattle.bot_machine.specs.declared.lives.disk_state.DiskState.TheVariants.{Stopped};

    /// No life has been yet, and packets have at most 512 bytes (high speed): see `new_with`.
    pub fn new(medium: SimMedium, identity: Identity) -> Lives
        ensures { AreNew (device_of identity High512) medium result }
    {
        Lives::new_with(medium, identity, PacketSize::High512)
    }

    /// No life has been yet. Packets are of this size, and the disks retire late: see `new_by`.
    pub fn new_with(medium: SimMedium, identity: Identity, size: PacketSize) -> Lives
        ensures { AreNew (device_of identity size) medium result }
    {
        Lives::new_by(medium, identity, size, Retiring::Late)
    }

    /// No life has been yet. Packets are of this size, and the disks retire as is asked here.
    ///
    /// Where the power of the medium is on, nothing is unflushed and no fuse is armed, the first
    /// life opens with the blocks for which the contents stand, and has their limit.
    pub fn new_by(
        medium: SimMedium,
        identity: Identity,
        size: PacketSize,
        retiring: Retiring,
    ) -> Lives
        ensures { AreNew (device_by identity size retiring) medium result }
    {
        Lives {
            identity,
            size,
            retiring,
            state: Some(DiskState::Stopped(medium)),
        }
    }

    /// The medium.
    pub fn medium(&self) -> &SimMedium
        ensures { result.now ≡ medium_in self.now.state }
    {
        match &self.state {
            Some(state) => disk_state::medium_of(state),
            None => unreachable!(),
        }
    }

    /// Gives the medium back.
    pub fn into_medium(self) -> SimMedium
        ensures { result ≡ medium_in self.state }
    {
        let Lives { state, .. } = self;
        disk_state::into_medium(state.unwrap())
    }

    /// Arms a fuse for the rest of this life: `writes` writes and flushes happen, and at the next
    /// the power goes. No disk is started.
    pub fn fuse(&mut self, writes: u64)
        ensures goes_on { LivesGoOn self.old (arms writes ∷ []) [] self.new }
        ensures fused { IsFused writes (medium_in self.old.state) (medium_in self.new.state) }
    {
        match &mut self.state {
            Some(state) => disk_state::fuse(state, writes),
            None => unreachable!(),
        }
    }

    /// Arms a failure of one call of the medium: the one with this number from now on, counted from
    /// 1, is refused once, unless a cut comes first. No disk is started.
    pub fn fail(&mut self, call: u64)
        requires { 0 < call }
        ensures goes_on { LivesGoOn self.old (fails call ∷ []) [] self.new }
        ensures failing { IsFailing call (medium_in self.old.state) (medium_in self.new.state) }
    {
        match &mut self.state {
            Some(state) => disk_state::fail(state, call),
            None => unreachable!(),
        }
    }

    /// Starts a disk where none runs. Nothing happens where one runs, or where the power is off.
    ///
    /// # Errors
    ///
    /// The fault with which the start was refused, where the power is still on. No disk runs then.
    pub fn start(&mut self, alloc: Global) -> Result<(), StartFault>
        ensures { LifeBegins self.old result self.new }
    {
        let state = self.state.take().unwrap();
        match disk_state::start(alloc, state, self.identity, self.size, self.retiring) {
            Ok(state) => {
                put(&mut self.state, state);
                Ok(())
            }
            Err(StartError { fault, medium }) => {
                put(&mut self.state, DiskState::Stopped(medium));
                Err(fault)
            }
        }
    }

    /// Plays an event, and gives the answer. A disk is started first where none runs. The event's
    /// packet, if it is one, is no longer than those of the disk.
    ///
    /// # Errors
    ///
    /// The fault with which the start was refused, where the power is still on. No disk runs then.
    pub fn event(&mut self, alloc: Global, event: &Event) -> Result<Answer, StartFault>
        requires { IsWithin self.old.device.packet_size event.now }
        ensures ok { IfOk result (λ answer. LivesAnswer self.old event.now answer self.new) }
        ensures err { IfErr result (λ fault. LivesRefuseStart self.old fault self.new) }
        ensures follows { ComesAfter (medium_in self.old.state) (medium_in self.new.state) }
    {
        self.start(alloc)?;
        Ok(self.play(event))
    }

    /// Plays an event on a disk that was started.
    pub(crate) fn play(&mut self, event: &Event) -> Answer
        requires { AwaitsEvent self.old event.now }
        ensures goes_on { LivesGoOn self.old (plays event.now ∷ []) (result ∷ []) self.new }
        ensures plays { DiskAnswers self.old.state result self.new.state }
    {
        match &mut self.state {
            Some(state) => disk_state::play(state, event),
            None => unreachable!(),
        }
    }

    /// Cuts the power, and turns it on again: of the unflushed writes of the medium the kept ones
    /// are applied, and fuse and failure are disarmed. No disk runs then.
    pub fn cut(&mut self, kept: &Kept)
        ensures goes_on { LivesGoOn self.old (cuts (keeps kept.now) ∷ []) [] self.new }
        ensures exact { IsCut (keeps kept.now) (medium_in self.old.state)
            (medium_in self.new.state) }
        ensures rests { self.new.state ≡ Stopped (medium_in self.new.state) }
    {
        let state = self.state.take().unwrap();
        let medium = disk_state::cut(state, kept);
        put(&mut self.state, DiskState::Stopped(medium));
    }
}

// Puts a state where none is.
fn put(place: &mut Option<DiskState>, state: DiskState)
    ensures { place.new ≡ Some state }
{
    *place = Some(state);
}
