//! A disk over a medium in memory, or the medium alone.
ghost use Rattle.std.specs.Prelude.{◌≡◌, ◌<◌, ◌↔◌, [], ◌∷◌, true, IfOk, IfErr, MatchResult};
ghost use Rattle.medium.specs.Sim.{IsCut, IsFused, IsFailing, ComesAfter};
ghost use Rattle.medium.specs.Writes.{keeps};
ghost use Rattle.bot_machine.specs.Device.{Device, device_by};
ghost use Rattle.spec.specs.Lives.{starts, plays, cuts, arms, fails};
ghost use Rattle.bot_machine.specs.LivesValue.{medium_in, HasStarted, TakesEvent, HasBegun};
ghost use Rattle.bot_machine.specs.LivesValue.{LivesGoOn, LivesRefuseStart, DiskAnswers, ArmsState};
ghost use Rattle.bot_machine.specs.declared.lives.disk_state.DiskState.TheVariants.{Stopped};
ghost use Rattle.bot_machine.specs.declared.lives.disk_state.DiskState.TheVariants.{Running};

use crate::disk::Disk;
use crate::run::answer_to;
use crate::{Identity, Retiring, StartError};
use medium::{Kept, SimMedium, Switch};
use spec::{Answer, Event, PacketSize};
use std::alloc::Global;

// What there is of a disk over a medium in memory.
#[derive(Drop)]
pub(crate) enum DiskState {
    // No disk runs.
    Stopped(SimMedium),
    // A disk runs, or its power went in an event.
    Running(Disk<SimMedium>),
}

/// The medium.
pub(crate) fn medium_of(state: &DiskState) -> &SimMedium
    ensures { result.now ≡ medium_in state.now }
{
    match state {
        DiskState::Stopped(medium) => medium,
        DiskState::Running(disk) => disk.medium(),
    }
}

/// Gives the medium back.
pub(crate) fn into_medium(state: DiskState) -> SimMedium
    ensures { result ≡ medium_in state }
{
    match state {
        DiskState::Stopped(medium) => medium,
        DiskState::Running(disk) => disk.into_medium(),
    }
}

/// Arms a fuse.
#[tactic(auto, using(crate::proofs::LifeActions::arming))]
pub(crate) fn fuse(state: &mut DiskState, writes: u64)
    ensures goes_on { (device : Device) → LivesGoOn
        (record { device = device; state = state.old }) (arms writes ∷ []) []
        (record { device = device; state = state.new }) }
    ensures armed { ArmsState (IsFused writes) state.old state.new }
{
    match state {
        DiskState::Stopped(medium) => medium.fuse(writes),
        DiskState::Running(disk) => disk.fuse(writes),
    }
}

/// Arms a failure of one call.
#[tactic(auto, using(crate::proofs::LifeActions::arming))]
pub(crate) fn fail(state: &mut DiskState, call: u64)
    requires { 0 < call }
    ensures goes_on { (device : Device) → LivesGoOn
        (record { device = device; state = state.old }) (fails call ∷ []) []
        (record { device = device; state = state.new }) }
    ensures armed { ArmsState (IsFailing call) state.old state.new }
{
    match state {
        DiskState::Stopped(medium) => medium.fail(call),
        DiskState::Running(disk) => disk.fail(call),
    }
}

/// Starts a disk where none runs and the power is on. No disk runs where power goes in the start.
pub(crate) fn start(
    alloc: Global,
    state: DiskState,
    identity: Identity,
    size: PacketSize,
    retiring: Retiring,
) -> Result<DiskState, StartError<SimMedium>>
    ensures ok { IfOk result (λ new. LivesGoOn
        (record { device = device_by identity size retiring; state = state }) (starts ∷ []) []
        (record { device = device_by identity size retiring; state = new })) }
    ensures begun { IfOk result (HasBegun state) }
    ensures err { IfErr result (λ error. LivesRefuseStart
        (record { device = device_by identity size retiring; state = state }) error.fault
        (record { device = device_by identity size retiring; state = Stopped error.medium })) }
    ensures follows { MatchResult result (λ new. ComesAfter (medium_in state) (medium_in new))
        (λ error. ComesAfter (medium_in state) error.medium) }
{
    let medium = match state {
        DiskState::Stopped(medium) => medium,
        DiskState::Running(disk) => return Ok(DiskState::Running(disk)),
    };
    if medium.is_off() {
        return Ok(DiskState::Stopped(medium));
    }
    match Disk::start_by(alloc, medium, identity, size, retiring) {
        Ok(disk) => Ok(DiskState::Running(disk)),
        Err(error) => {
            if error.medium.is_off() {
                return Ok(DiskState::Stopped(error.medium));
            }
            Err(error)
        }
    }
}

/// Plays an event on a disk that was started.
pub(crate) fn play(state: &mut DiskState, event: &Event) -> Answer
    requires started { HasStarted state.old }
    requires within { TakesEvent state.old event.now }
    ensures goes_on { (device : Device) → LivesGoOn
        (record { device = device; state = state.old }) (plays event.now ∷ []) (result ∷ [])
        (record { device = device; state = state.new }) }
    ensures plays { DiskAnswers state.old result state.new }
{
    match state {
        DiskState::Stopped(_) => Answer::Off,
        DiskState::Running(disk) => play_on(disk, event),
    }
}

// Plays an event on a disk. The answer is the disk's where the power is on afterwards.
fn play_on(disk: &mut Disk<SimMedium>, event: &Event) -> Answer
    requires { TakesEvent (Running disk.old) event.now }
    ensures goes_on { (device : Device) → LivesGoOn
        (record { device = device; state = Running disk.old }) (plays event.now ∷ []) (result ∷ [])
        (record { device = device; state = Running disk.new }) }
    ensures off { (result ≡ Answer.Off) ↔ (disk.new.unit.store.medium.power.off ≡ true) }
    ensures follows { ComesAfter disk.old.unit.store.medium disk.new.unit.store.medium }
    ensures packets { disk.new.line.packet_size ≡ disk.old.line.packet_size }
{
    if disk.medium().is_off() {
        return Answer::Off;
    }
    let answer = answer_to(disk, event);
    if disk.medium().is_off() {
        return Answer::Off;
    }
    answer
}

/// Cuts the power. No disk runs then.
pub(crate) fn cut(state: DiskState, kept: &Kept) -> SimMedium
    ensures goes_on { (device : Device) → LivesGoOn
        (record { device = device; state = state }) (cuts (keeps kept.now) ∷ []) []
        (record { device = device; state = Stopped result }) }
    ensures exact { IsCut (keeps kept.now) (medium_in state) result }
{
    let mut medium = into_medium(state);
    medium.cut(kept);
    medium
}
