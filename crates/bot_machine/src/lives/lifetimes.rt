//! Whole lives of a disk, one after the other.
ghost use Rattle.std.specs.Prelude.{◌≡◌, ◌≤◌, ◌+◌, [], List, length, map, OnOk, IfOk, IfErr};
ghost use Rattle.std.specs.Prelude.{MatchOption};
ghost use Rattle.medium.specs.Sim.{IsFused};
ghost use Rattle.spec.specs.declared.event.Answer.{Answer};
ghost use Rattle.spec.specs.Lives.{plays};
ghost use Rattle.bot_machine.specs.Device.{device_of, device_with};
ghost use Rattle.bot_machine.specs.Fitting.{AreWithin};
ghost use Rattle.spec.specs.Packets.{bytes_of};
ghost use Rattle.spec.specs.declared.packet_size.PacketSize.TheVariants.{High512};
ghost use Rattle.bot_machine.specs.LivesValue.{medium_in, LivesGoOn, RestsAlone};
ghost use Rattle.bot_machine.specs.Lifetimes.{actions_of, armed_by, Appends, AppendsFor};
ghost use Rattle.bot_machine.specs.Lifetimes.{KeepPromise, KeepPromiseUpTo, AreLived, AreLivedUpTo};
ghost use Rattle.bot_machine.specs.Lifetimes.{AwaitsEvents, AwaitsLives, AwaitsLivesWithin};
ghost use Rattle.bot_machine.specs.Lifetimes.{IsNotLived};

use crate::answers::Answers;
use crate::lives::Lives;
use crate::lives::life::Life;
use crate::{Identity, Retiring, StartError, StartFault};
use medium::SimMedium;
use spec::{Event, PacketSize};
use std::alloc::Global;

/// What a disk is started with.
#[derive(Drop)]
pub struct DiskSetup {
    /// What it tells of itself.
    pub identity: Identity,
    /// The size of its packets.
    pub size: PacketSize,
    /// When it retires its records.
    pub retiring: Retiring,
}

/// Lives a disk's lives with packets of at most 512 bytes (high speed): see `run_lives_with`. The
/// power of the medium is on, nothing is unflushed and no fuse is armed, and each event has room
/// for its answer.
///
/// # Errors
///
/// Those of `run_lives_with`.
pub fn run_lives(
    alloc: Global,
    medium: SimMedium,
    identity: Identity,
    lives: &[Life],
    answers: &mut Answers,
) -> Result<SimMedium, StartError<SimMedium>>
    requires { AwaitsLives medium lives.now answers.old }
    ensures promise { IfOk result (λ after. (told : List Answer)
        × Appends told answers.old answers.new
        × KeepPromise medium (device_of identity High512) lives.now told after) }
    ensures moves { IfOk result (λ after. (told : List Answer)
        × Appends told answers.old answers.new
        × AreLived medium (device_of identity High512) lives.now told after) }
    ensures promise_until { IfErr result (λ error. (told : List Answer)
        × Appends told answers.old answers.new
        × KeepPromiseUpTo medium (device_of identity High512) lives.now told error.medium) }
    ensures moves_until { IfErr result (λ error. (told : List Answer)
        × Appends told answers.old answers.new
        × AreLivedUpTo medium (device_of identity High512) lives.now told error.fault
        error.medium) }
{
    run_lives_with(alloc, medium, identity, PacketSize::High512, lives, answers)
}

/// Lives a disk's lives with packets of this size, which no packet of the events exceeds, where the
/// disks retire late: see `run_lives_by`.
///
/// # Errors
///
/// Those of `run_lives_by`.
pub fn run_lives_with(
    alloc: Global,
    medium: SimMedium,
    identity: Identity,
    size: PacketSize,
    lives: &[Life],
    answers: &mut Answers,
) -> Result<SimMedium, StartError<SimMedium>>
    requires { AwaitsLivesWithin (bytes_of size) medium lives.now answers.old }
    ensures promise { IfOk result (λ after. (told : List Answer)
        × Appends told answers.old answers.new
        × KeepPromise medium (device_of identity size) lives.now told after) }
    ensures moves { IfOk result (λ after. (told : List Answer)
        × Appends told answers.old answers.new
        × AreLived medium (device_of identity size) lives.now told after) }
    ensures promise_until { IfErr result (λ error. (told : List Answer)
        × Appends told answers.old answers.new
        × KeepPromiseUpTo medium (device_of identity size) lives.now told error.medium) }
    ensures moves_until { IfErr result (λ error. (told : List Answer)
        × Appends told answers.old answers.new
        × AreLivedUpTo medium (device_of identity size) lives.now told error.fault error.medium) }
{
    let setup = DiskSetup {
        identity,
        size,
        retiring: Retiring::Late,
    };
    run_lives_by(alloc, medium, setup, lives, answers)
}

/// Lives a disk's lives with packets of this size, which no packet of the events exceeds, and
/// appends an answer to each event. The clause `promise` says what a host may rely on, by `spec`
/// alone, and `moves` what the same actions do to the disk and its medium. In each life a disk that
/// retires as is asked here is started on the medium that the one before has left, its events come,
/// and the power is cut. Where a fuse lets the power go, in the start or in an event, every answer
/// from there on is `Off`. Memory is taken by the starts alone.
///
/// # Errors
///
/// The first start that is refused though the power is on ends the lives. The answers of the lives
/// before it are appended, and the medium comes back.
pub fn run_lives_by(
    alloc: Global,
    medium: SimMedium,
    setup: DiskSetup,
    lives: &[Life],
    answers: &mut Answers,
) -> Result<SimMedium, StartError<SimMedium>>
    requires { AwaitsLivesWithin (bytes_of setup.size) medium lives.now answers.old }
    ensures promise { IfOk result (λ after. (told : List Answer)
        × Appends told answers.old answers.new
        × KeepPromise medium (device_with setup) lives.now told after) }
    ensures moves { IfOk result (λ after. (told : List Answer)
        × Appends told answers.old answers.new
        × AreLived medium (device_with setup) lives.now told after) }
    ensures promise_until { IfErr result (λ error. (told : List Answer)
        × Appends told answers.old answers.new
        × KeepPromiseUpTo medium (device_with setup) lives.now told error.medium) }
    ensures moves_until { IfErr result (λ error. (told : List Answer)
        × Appends told answers.old answers.new
        × AreLivedUpTo medium (device_with setup) lives.now told error.fault error.medium) }
{
    let mut run = Lives::new_by(medium, setup.identity, setup.size, setup.retiring);
    for life in lives {
        if let Err(fault) = live(alloc, &mut run, life, answers) {
            return Err(StartError {
                fault,
                medium: run.into_medium(),
            });
        }
    }
    Ok(run.into_medium())
}

// One life.
fn live(
    alloc: Global,
    run: &mut Lives,
    life: &Life,
    answers: &mut Answers,
) -> Result<(), StartFault>
    requires within { AreWithin run.old.device.packet_size life.now.events.items }
    requires room { length answers.old.list + length life.now.events.items ≤ answers.old.room }
    ensures ok { OnOk result (AppendsFor run.old run.new answers.old answers.new
        (actions_of life.now) (length life.now.events.items)) }
    ensures ended { OnOk result (RestsAlone run.new) }
    ensures err { IfErr result (λ fault.
        IsNotLived run.old run.new answers.old answers.new life.now fault) }
{
    arm(run, life.fuse);
    run.start(alloc)?;
    play_all(run, life.events.as_slice(), answers);
    run.cut(&life.kept);
    Ok(())
}

// Arms the fuse of a life, if it has one.
fn arm(run: &mut Lives, fuse: Option<u64>)
    ensures goes_on { LivesGoOn run.old (armed_by fuse) [] run.new }
    ensures fused { MatchOption fuse (run.new ≡ run.old) (λ writes. IsFused writes
        (medium_in run.old.state) (medium_in run.new.state)) }
{
    if let Some(writes) = fuse {
        run.fuse(writes);
    }
}

// The events of a life that was started.
fn play_all(run: &mut Lives, events: &[Event], answers: &mut Answers)
    requires { AwaitsEvents run.old events.now answers.old }
    ensures { AppendsFor run.old run.new answers.old answers.new
        (map plays events.now) (length events.now) }
{
    for event in events {
        answers.push(run.play(event));
    }
}
