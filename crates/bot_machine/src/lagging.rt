//! A disk whose device may be behind.
ghost use Rattle.std.specs.Prelude.{⊤, ◌≡◌, ◌≤◌, length, None, Some, IfSome, false, true};
ghost use Rattle.std.specs.Borrow.{sem, follows_so};
ghost use mathlib.Core.Option.{none};
ghost use Rattle.medium.specs.Moments.{EachCut};
ghost use Rattle.spec.specs.Exchange.{in_answer};
ghost use Rattle.spec.specs.Lagging.{Lagging};
ghost use Rattle.scsi.specs.Rules.{UnitState};
ghost use Rattle.scsi_unit.specs.Calls.{ComesBy};
ghost use Rattle.spec.specs.declared.event.Event.TheVariants as event;
ghost use Rattle.spec.specs.declared.event.Answer.TheVariants.{Ticked};
ghost use Rattle.bot_machine.specs.Answers.{answer_to_out, answer_to_in, answer_to_setup};
ghost use Rattle.bot_machine.specs.Answers.{IsPacket};
ghost use Rattle.bot_machine.specs.LaggingDisk.{IsLagStep, IsLagStepBy, MakesStep, WorksAside};
ghost use Rattle.bot_machine.specs.LaggingDisk.{AreNeeded, ArmsLagging, MayPromiseNext, StandsFor};
ghost use Rattle.bot_machine.specs.LaggingDisk.{GivesLagRun, TakesLagRun, after_token, held_book};
ghost use Rattle.bot_machine.specs.Disk.{IsRearmed};
ghost use Rattle.bot_machine.specs.contracts.lagging.LaggingDisk.{the_row};
ghost use Rattle.bot_machine.specs.{Disk.FitsDisk, LaggingParts.PendingRefused};
ghost use Rattle.logical_blocks.specs.Book.{Book};
ghost use Rattle.scsi_unit.specs.{Background.is_dead, Books.MayFind, Reading.AreHome};
ghost use Rattle.scsi_unit.specs.UnitValue.{state_of, unit_limit};
ghost use Rattle.scsi_unit.specs.Faulting.{faulted_state, faulted_unit};
ghost use Rattle.scsi_unit.specs.declared.progress.Want.TheVariants as want;
ghost use Rattle.bot_machine.specs.LaggingParts.{AwaitsDevice, PacketBegun, PendingAdvanced};

use crate::bulk_state::Phase;
use crate::disk::Disk;
use crate::event::{InAnswer, OutAnswer, SetupAnswer};
use crate::exchange::Exchange;
use crate::pending::{
    Pending, Wanted, advance_at_once, advance_taken, data_packet, open_packet, settle,
};
use crate::request::is_reset;
use medium::{Inlet, Medium, Outlet};
use scsi_unit::{Need, Want, Work};
use std::marker::Model;
use std::mem;

/// A disk whose device may be behind. A packet is acknowledged once its bytes are all there, and
/// its command is carried out by steps: while one is pending, Bulk-Out takes no other packet, and
/// Bulk-In sends nothing.
#[derive(Drop)]
pub struct LaggingDisk<M: Medium> {
    disk: Disk<M>,
    pending: Option<Pending>,
}

impl<M: Medium> Model for LaggingDisk<M> {
    ghost use Rattle.bot_machine.specs.LaggingDisk.{LaggingValue};
    ghost use Rattle.bot_machine.specs.LaggingParts.{AwaitsDevice};

    ghost Value = { LaggingValue M };

    ghost view = { λ d. record { disk = d.disk; pending = d.pending } };

    ghost invariant = { λ d. AwaitsDevice d.disk d.pending };
}

impl<M: Medium> LaggingDisk<M> {
    /// A disk of which nothing is pending.
    pub fn new(disk: Disk<M>) -> LaggingDisk<M>
        ensures { result ≡ record { disk = disk; pending = None } }
    {
        LaggingDisk {
            disk,
            pending: None,
        }
    }

    /// The disk, as it was before the packet that is pending.
    pub fn disk(&self) -> &Disk<M>
        ensures { result.now ≡ self.now.disk }
    {
        &self.disk
    }

    /// Gives the disk back. What is pending is dropped.
    pub fn into_disk(self) -> Disk<M>
        ensures { result ≡ self.disk }
    {
        self.disk
    }

    /// The medium that the disk stands on.
    ///
    /// Between two calls a cut leaves what may be found of the book that the unit fits.
    pub fn medium(&self) -> &M
        ensures is { result.now ≡ self.now.disk.unit.store.medium }
        ensures at_rest { (book : Book) (s : Lagging UnitState)
            → StandsFor (M.state self.now.disk.unit.store.medium) self.now book s
            → book.ours ≡ true
            → EachCut (MayFind (M.state self.now.disk.unit.store.medium).size
            (held_book self.now book)) (M.state self.now.disk.unit.store.medium) }
    {
        self.disk.medium()
    }

    /// What the device has to do before the command that is pending makes its next step. None where
    /// no command is.
    pub fn needs(&self) -> Option<Need>
        ensures is { AreNeeded self.now.disk.unit self.now.pending result }
        ensures bounds { (need : Need) → result ≡ Some need → IfSome need.home
            (λ home. AreHome (unit_limit self.now.disk.unit)
            (M.state self.now.disk.unit.store.medium).size home.first home.count) }
    {
        match &self.pending {
            Some(Pending { wrapper: _, wanted }) => Some(
                self.disk.unit.needs(&wanted.command, wanted.want),
            ),
            None => None,
        }
    }

    /// Takes a packet to Bulk-Out, of at most as many bytes as a packet of this disk has (Bulk-Only
    /// Transport 1.0, 5.1). No call of the medium is made: a command that needs one is pending.
    pub fn bulk_out(&mut self, packet: &[u8]) -> OutAnswer
        requires { length packet.now ≤ self.old.disk.line.packet_size }
        ensures step { IsLagStep ⊥ (M.state self.old.disk.unit.store.medium)
            (M.state self.new.disk.unit.store.medium) self.old
            (event.Out (record { items = packet.now })) (answer_to_out result) self.new }
        ensures follows { ComesBy M.state M.follows self.old.disk.unit.store
            self.new.disk.unit.store }
        ensures medium { self.new.disk.unit.store.medium ≡ self.old.disk.unit.store.medium }
    {
        match &self.pending {
            Some(_) => OutAnswer::Nak,
            None => {
                let (answer, pending) = self.disk.begin_packet(packet);
                self.pending = pending;
                answer
            }
        }
    }

    /// Makes one step of the command that is pending, of at most two calls of the medium, or those
    /// that read the blocks of a READ. The step in which it ends lays its answer out. Nothing is
    /// done where none is pending.
    pub fn go_on(&mut self)
        ensures step { IsLagStep (MayPromiseNext self.old)
            (M.state self.old.disk.unit.store.medium)
            (M.state self.new.disk.unit.store.medium) self.old event.Tick Ticked self.new }
        ensures makes { MakesStep M.state M.follows self.old self.new }
    {
        if let Some(pending) = mem::replace(&mut self.pending, None) {
            self.pending = self.disk.advance(pending);
        }
    }

    /// Makes a step in the background that works towards this, of at most two calls of the medium.
    /// None is made while a command is pending, which makes its own.
    pub fn work(&mut self, work: Work)
        ensures step { IsLagStep ⊥ (M.state self.old.disk.unit.store.medium)
            (M.state self.new.disk.unit.store.medium) self.old event.Tick Ticked self.new }
        ensures works { WorksAside work M.state M.follows self.old.pending self.old self.new }
    {
        match &self.pending {
            Some(_) => {}
            None => self.disk.work(work),
        }
    }

    /// The device behind the medium refused a call that it had taken: the disk is faulted, and no
    /// call is made. A command that is pending ends with a write error where it writes or makes
    /// writes durable. A READ that waits for its blocks ends in its next step, as on a unit that
    /// was faulted before.
    pub fn refuse(&mut self)
        ensures step { IsLagStepBy ⊥ true (M.state self.old.disk.unit.store.medium)
            (M.state self.new.disk.unit.store.medium) self.old event.Tick Ticked self.new }
        ensures dead { is_dead self.new.disk.unit.store.cached ≡ true }
        ensures medium { self.new.disk.unit.store.medium ≡ self.old.disk.unit.store.medium }
    {
        match mem::replace(&mut self.pending, None) {
            Some(pending) => self.pending = self.disk.refuse_pending(pending),
            None => self.disk.stop(),
        }
    }

    /// Takes a setup packet (Bulk-Only Transport 1.0, 3; USB 2.0, 9.4). A mass storage reset drops
    /// the command that is pending: its write is the last one accepted, whole, or is not accepted.
    /// No call of the medium is made.
    pub fn setup(&mut self, packet: [u8; 8]) -> SetupAnswer
        ensures step { IsLagStep ⊥ (M.state self.old.disk.unit.store.medium)
            (M.state self.new.disk.unit.store.medium) self.old (event.Setup packet)
            (answer_to_setup result) self.new }
        ensures unit { self.new.disk.unit ≡ self.old.disk.unit }
    {
        if is_reset(packet) {
            self.pending = None;
            return self.disk.setup(packet);
        }
        self.disk.setup(packet)
    }

    /// Takes a token to Bulk-In, and lends the packet to send (Bulk-Only Transport 1.0, 5.2). None
    /// is sent while a command is pending. No call of the medium is made.
    pub fn bulk_in(&mut self) -> InAnswer<'_>
        ensures* after { sem 𝓛 (follows_so (the_row M.row M.Medium) (the_row M.row M.Medium)
            self.entry.ghost_name none (λ _ _. ⊤) (λ new. new ≡ after_token self.old)) }
        ensures answer { answer_to_in result ≡ in_answer self.old.disk.line }
        ensures fits { IsPacket self.old.disk.line.packet_size result }
        ensures most { self.old.disk.line.packet_size ≤ 512 }
        ensures step { IsLagStep ⊥ (M.state self.old.disk.unit.store.medium)
            (M.state self.old.disk.unit.store.medium) self.old event.In
            (in_answer self.old.disk.line) (after_token self.old) }
    {
        self.disk.bulk_in()
    }

    /// Gives packets that are to be sent, as `Disk::bulk_in_run` does. Each is an event of its own.
    pub fn bulk_in_run(&mut self, room: &mut [u8]) -> usize
        ensures { GivesLagRun M.state self.old room.old self.new room.new result }
    {
        self.disk.bulk_in_run(room)
    }

    /// Takes packets in the midst of data, as `Disk::bulk_out_run` does. Each is an event of its
    /// own. None is taken while a command is pending.
    pub fn bulk_out_run(&mut self, bytes: &[u8]) -> usize
        ensures { TakesLagRun M.state self.old bytes.now self.new result }
    {
        self.disk.bulk_out_run(bytes)
    }
}

impl<M: Outlet> LaggingDisk<M> {
    /// Lets go of the call that the medium's device is to carry out next, if there is one.
    pub fn pop(&mut self)
        ensures { ArmsLagging M.state M.given self.old self.new }
    {
        self.disk.pop();
    }
}

impl<M: Inlet> LaggingDisk<M> {
    /// Shows sectors to the medium as its device holds them. Nothing but the medium changes.
    pub fn show(&mut self, first: u64, bytes: &[u8]) -> bool
        ensures shown { M.shown first bytes.now result self.old.disk.unit.store.medium
            self.new.disk.unit.store.medium }
        ensures others { IsRearmed self.old.disk self.new.disk }
        ensures pending { self.new.pending ≡ self.old.pending }
    {
        self.disk.show(first, bytes)
    }
}

impl<M: Medium> Disk<M> {
    // Takes a packet to Bulk-Out, and begins a command whose bytes are all there.
    fn begin_packet(&mut self, packet: &[u8]) -> (OutAnswer, Option<Pending>)
        ensures { PacketBegun M.state M.follows self.old packet.now (answer_to_out result.0)
            result.1 self.new }
    {
        if self.bulk.out_halted {
            return (OutAnswer::Stall, None);
        }
        match self.bulk.phase {
            Phase::Command => {
                let pending = open_packet(
                    &mut self.unit,
                    &mut self.bulk,
                    &mut self.transfer,
                    packet,
                );
                (OutAnswer::Ack, pending)
            }
            Phase::DataOut(_) => {
                let pending = data_packet(
                    &mut self.unit,
                    &mut self.bulk,
                    &mut self.transfer,
                    packet,
                );
                (OutAnswer::Ack, pending)
            }
            _ => (OutAnswer::Nak, None),
        }
    }

    // Makes one step of the command that is pending. What is pending then.
    fn advance(&mut self, pending: Pending) -> Option<Pending>
        requires { AwaitsDevice self.old (Some pending) }
        ensures { PendingAdvanced M.state M.follows self.old pending result self.new }
    {
        let Pending { wrapper, wanted } = pending;
        match wrapper {
            Some(exchange) => self.advance_wrapper(exchange, wanted),
            None => self.advance_data(wanted),
        }
    }

    // The same of a command that takes no data.
    fn advance_wrapper(&mut self, exchange: Exchange, wanted: Wanted) -> Option<Pending>
        requires { AwaitsDevice self.old (Some (record {
          wrapper = Some exchange;
          wanted = wanted;
        })) }
        ensures { PendingAdvanced M.state M.follows self.old
            (record { wrapper = Some exchange; wanted = wanted }) result self.new }
    {
        let want = advance_at_once(
            &mut self.unit,
            &mut self.bulk,
            &mut self.transfer,
            &exchange,
            wanted,
        )?;
        Some(Pending {
            wrapper: Some(exchange),
            wanted: Wanted { want, ..wanted },
        })
    }

    // The same of a command whose data is on the line.
    fn advance_data(&mut self, wanted: Wanted) -> Option<Pending>
        requires { AwaitsDevice self.old (Some (record { wrapper = None; wanted = wanted })) }
        ensures { PendingAdvanced M.state M.follows self.old
            (record { wrapper = None; wanted = wanted }) result self.new }
    {
        let Phase::DataOut(taking) = mem::replace(&mut self.bulk.phase, Phase::Command) else {
            unreachable!()
        };
        let taken = &self.transfer[..taking.filled];
        let want = advance_taken(
            &mut self.unit,
            &mut self.bulk,
            &taking.exchange,
            taken,
            wanted,
        )?;
        self.bulk.phase = Phase::DataOut(taking);
        Some(Pending {
            wrapper: None,
            wanted: Wanted { want, ..wanted },
        })
    }

    // The device refused a call, and nothing of the line changes.
    fn stop(&mut self)
        ensures disk { self.new ≡ record self.old { unit = faulted_unit false self.old.unit } }
        ensures state { (book : Book) → state_of self.new.unit book
            ≡ faulted_state false (state_of self.old.unit book) }
        ensures fits { (book : Book) → FitsDisk (M.state self.old.unit.store.medium) self.old book
            → FitsDisk (M.state self.new.unit.store.medium) self.new book }
    {
        self.unit.fault(false);
    }

    // The device refused a call while this is pending. What is pending then.
    fn refuse_pending(&mut self, pending: Pending) -> Option<Pending>
        requires { AwaitsDevice self.old (Some pending) }
        ensures { PendingRefused M.state self.old pending result self.new }
    {
        let Pending { wrapper, wanted } = pending;
        if let Want::Read = wanted.want {
            self.stop();
            return Some(Pending { wrapper, wanted });
        }
        match wrapper {
            Some(exchange) => self.refuse_wrapper(exchange, wanted),
            None => self.refuse_data(wanted),
        }
    }

    // A command that takes no data, and writes or makes writes durable, ends with a write error.
    fn refuse_wrapper(&mut self, exchange: Exchange, wanted: Wanted) -> Option<Pending>
        requires awaits { AwaitsDevice self.old (Some (record {
          wrapper = Some exchange;
          wanted = wanted;
        })) }
        requires writes { wanted.want ≡ want.Read → ⊥ }
        ensures { PendingRefused M.state self.old
            (record { wrapper = Some exchange; wanted = wanted }) result self.new }
    {
        let progress = self.unit.refuse();
        settle(&mut self.bulk, &exchange, progress);
        None
    }

    // The same of a command whose data is on the line.
    fn refuse_data(&mut self, wanted: Wanted) -> Option<Pending>
        requires { AwaitsDevice self.old (Some (record { wrapper = None; wanted = wanted })) }
        ensures { PendingRefused M.state self.old (record { wrapper = None; wanted = wanted })
            result self.new }
    {
        let Phase::DataOut(taking) = mem::replace(&mut self.bulk.phase, Phase::Command) else {
            unreachable!()
        };
        let progress = self.unit.refuse();
        settle(&mut self.bulk, &taking.exchange, progress);
        None
    }
}
