//! A disk: the transport over a logical unit.
ghost use Rattle.std.specs.Prelude.{⊤, ◌↔◌, ◌≡◌, ◌⊎◌, ◌≤◌, ◌<◌, ◌/◌, false, true, length};
ghost use Rattle.std.specs.Prelude.{[], IsTrue};
ghost use Rattle.medium.specs.Inlet.{AreHeld};
ghost use Rattle.std.specs.Borrow.{sem, follows_so};
ghost use mathlib.Core.Option.{none};
ghost use Rattle.medium.specs.Moments.{EachCut, IsUnchanged};
ghost use Rattle.logical_blocks.specs.Book.{Book};
ghost use Rattle.scsi_unit.specs.Books.{MayFind};
ghost use Rattle.scsi_unit.specs.Background.{IsSettled, IsWritten, HasLimits, Settle, is_dead};
ghost use Rattle.scsi_unit.specs.Background.{steps_left};
ghost use Rattle.scsi_unit.specs.Calls.{ComesBy};
ghost use Rattle.scsi_unit.specs.Starting.{HasLimit};
ghost use Rattle.scsi_unit.specs.UnitValue.{unit_limit, TellsLimit};
ghost use Rattle.spec.specs.Exchange.{in_answer, after_in, after_request};
ghost use Rattle.spec.specs.Requests.{mass_storage_reset};
ghost use Rattle.bot_machine.specs.Answers.{answer_to_out, answer_to_in, answer_to_setup, IsPacket};
ghost use Rattle.spec.specs.Conversation.{SetupStep};
ghost use Rattle.bot_machine.specs.Disk.{FitsDisk, IsStep, WorksDisk, IsRearmed, ArmsDisk};
ghost use Rattle.bot_machine.specs.Disk.{AnswersSetup};
ghost use Rattle.bot_machine.specs.Turns.{owes_status};
ghost use Rattle.spec.specs.declared.event.Event.TheVariants as event;
ghost use Rattle.bot_machine.specs.contracts.disk.Disk.{the_row};

use crate::bulk_out::{open, take_data};
use crate::bulk_state::{BulkState, Phase};
use crate::event::{InAnswer, OutAnswer, SetupAnswer};
use crate::request::{ControlRequest, read_request};
use medium::{Inlet, Medium, Outlet, Switch};
use scsi_unit::{Unit, Work};
use std::marker::Model;

/// A disk over a medium.
#[derive(Drop)]
pub struct Disk<M: Medium> {
    pub(crate) unit: Unit<M>,
    pub(crate) bulk: BulkState,
    // The intended bytes that came of the data being taken, or the bytes that are sent: the phase
    // tells which.
    pub(crate) transfer: Vec<u8>,
}

impl<M: Medium> Model for Disk<M> {
    ghost use Rattle.bot_machine.specs.Disk.{DiskValue};

    ghost Value = { DiskValue M };

    ghost use Rattle.scsi_unit.specs.UnitValue.{unit_limit, intention_of};
    ghost use Rattle.bot_machine.specs.Refinement.{line_of, Invariant};

    ghost view = { λ d. record {
      line = line_of d.bulk d.transfer.items;
      unit = d.unit;
    } };

    ghost invariant = { λ d.
        Invariant (unit_limit d.unit) (intention_of d.unit) d.bulk.phase d.transfer.items };
}

impl<M: Medium> Disk<M> {
    /// How many blocks one READ or WRITE moves at most. The image tells it, and no call changes it.
    pub fn limit(&self) -> u32
        ensures { TellsLimit self.now.unit result }
    {
        self.unit.limit()
    }

    /// How many bytes a bulk packet has at most. No call changes it.
    pub fn packet_size(&self) -> u32
        ensures is { result ≡ self.now.line.packet_size }
        ensures sizes { (result ≡ 64) ⊎ (result ≡ 512) }
    {
        self.bulk.size.bytes()
    }

    /// Whether no step in the background is left: each accepted write is durable and at home then,
    /// and none waits. Of a faulted disk it is not told. As long as nothing is written it comes
    /// true after a bounded number of steps, unless one of them faults the disk.
    pub fn is_settled(&self) -> bool
        ensures steps { IsTrue result ↔ ((is_dead self.now.unit.store.cached ≡ false)
            × (steps_left self.now.unit.store.cached ≡ 0)) }
        ensures settled { result ≡ true → IsSettled (M.state self.now.unit.store.medium)
            self.now.unit.store.cached }
    {
        self.unit.is_settled()
    }

    /// Whether no record is left to write: both batches are empty, or the disk is faulted. Then an
    /// event makes one batch durable at most.
    pub fn is_written(&self) -> bool
        ensures { IsTrue result ↔ IsWritten self.now.unit.store.cached }
    {
        self.unit.is_written()
    }

    /// Whether the frozen batch of the store is empty: no WRITE that promises nothing asks the
    /// medium for anything then.
    pub fn has_free_batch(&self) -> bool
        ensures { IsTrue result ↔ (self.now.unit.store.cached.frozen.numbers ≡ []) }
    {
        self.unit.has_free_batch()
    }

    /// Whether the host is still to take a status wrapper, with or without data before it
    /// (Bulk-Only Transport 1.0, 5.3.3). A command whose data is still to come owes none, and a
    /// mass storage reset drops what is owed.
    pub fn owes_status(&self) -> bool
        ensures { result ≡ owes_status self.now.line.left }
    {
        match self.bulk.phase {
            Phase::Command | Phase::DataOut(_) => false,
            Phase::DataIn { .. } | Phase::Status => true,
        }
    }

    /// The medium that the disk stands on.
    ///
    /// Between two calls a cut leaves what may be found of each book that the disk fits. Where no
    /// step in the background is left, each accepted write is durable and at home. What a cut
    /// leaves has the limit of the disk, where every image was ours.
    pub fn medium(&self) -> &M
        ensures is { result.now ≡ self.now.unit.store.medium }
        ensures limits { HasLimits self.now.unit.store.cached }
        ensures settled { is_dead self.now.unit.store.cached ≡ false
            → steps_left self.now.unit.store.cached ≡ 0
            → IsSettled (M.state self.now.unit.store.medium) self.now.unit.store.cached }
        ensures at_rest { (book : Book)
            → FitsDisk (M.state self.now.unit.store.medium) self.now book → book.ours ≡ true
            → EachCut (MayFind (M.state self.now.unit.store.medium).size book)
            (M.state self.now.unit.store.medium) }
        ensures limit { (book : Book)
            → FitsDisk (M.state self.now.unit.store.medium) self.now book → book.ours ≡ true
            → EachCut (HasLimit (M.state self.now.unit.store.medium).size
            (unit_limit self.now.unit)) (M.state self.now.unit.store.medium) }
    {
        self.unit.medium()
    }

    /// Gives the medium back.
    pub fn into_medium(self) -> M
        ensures { result ≡ self.unit.store.medium }
    {
        self.unit.into_medium()
    }

    /// Takes a packet to Bulk-Out, of at most as many bytes as a packet of this disk has (Bulk-Only
    /// Transport 1.0, 5.1).
    pub fn bulk_out(&mut self, packet: &[u8]) -> OutAnswer
        requires { length packet.now ≤ self.old.line.packet_size }
        ensures step { IsStep (M.state self.old.unit.store.medium)
            (M.state self.new.unit.store.medium) self.old
            (event.Out (record { items = packet.now })) (answer_to_out result) self.new }
        ensures follows { ComesBy M.state M.follows self.old.unit.store self.new.unit.store }
    {
        if self.bulk.out_halted {
            return OutAnswer::Stall;
        }
        match self.bulk.phase {
            Phase::Command => {
                open(&mut self.unit, &mut self.bulk, &mut self.transfer, packet);
                OutAnswer::Ack
            }
            Phase::DataOut(_) => {
                take_data(&mut self.unit, &mut self.bulk, &mut self.transfer, packet);
                OutAnswer::Ack
            }
            _ => OutAnswer::Nak,
        }
    }

    /// Takes a token to Bulk-In, and lends the packet to send (Bulk-Only Transport 1.0, 5.2). No
    /// call of the medium is made.
    pub fn bulk_in(&mut self) -> InAnswer<'_>
        ensures* after { sem 𝓛 (follows_so (the_row M.row M.Medium) (the_row M.row M.Medium)
            self.entry.ghost_name none (λ _ _. ⊤)
            (λ new. new ≡ record self.old { line = after_in self.old.line })) }
        ensures answer { answer_to_in result ≡ in_answer self.old.line }
        ensures fits { IsPacket self.old.line.packet_size result }
        ensures most { self.old.line.packet_size ≤ 512 }
    {
        if self.bulk.in_halted {
            return InAnswer::Stall;
        }
        match self.bulk.phase {
            Phase::Command | Phase::DataOut(_) => InAnswer::Nak,
            Phase::DataIn { from, to, halt } => {
                let end = self.bulk.move_on(from, to, halt);
                InAnswer::Data(&self.transfer[from..end])
            }
            Phase::Status => {
                self.bulk.phase = Phase::Command;
                InAnswer::Data(&self.bulk.status)
            }
        }
    }

    /// Takes a setup packet (Bulk-Only Transport 1.0, 3; USB 2.0, 9.4). No call of the medium is
    /// made.
    pub fn setup(&mut self, packet: [u8; 8]) -> SetupAnswer
        ensures step { IsStep (M.state self.old.unit.store.medium)
            (M.state self.new.unit.store.medium) self.old
            (event.Setup packet) (answer_to_setup result) self.new }
        ensures request { SetupStep packet self.old.line (answer_to_setup result) self.new.line }
        ensures others { self.new ≡ record self.old { line = self.new.line } }
    {
        self.answer_request(packet)
    }

    // Answers a setup packet.
    fn answer_request(&mut self, packet: [u8; 8]) -> SetupAnswer
        ensures { AnswersSetup packet self.old (answer_to_setup result) self.new }
    {
        match read_request(packet) {
            None => SetupAnswer::Stall,
            Some(ControlRequest::MassStorageReset) => {
                self.reset();
                SetupAnswer::Ack
            }
            Some(ControlRequest::GetMaxLun) => SetupAnswer::Byte(0),
            Some(ControlRequest::ClearHalt(endpoint)) => {
                self.bulk.clear_halt(endpoint);
                SetupAnswer::Ack
            }
            Some(ControlRequest::GetStatus(endpoint)) => {
                SetupAnswer::Two([u8::from(self.bulk.is_halted(endpoint)), 0])
            }
        }
    }

    // Ends the lock and the exchange. A halt stays.
    fn reset(&mut self)
        ensures { self.new ≡ record self.old {
          line = after_request mass_storage_reset self.old.line;
        } }
    {
        self.bulk.locked = false;
        self.bulk.phase = Phase::Command;
    }

    /// Makes a step in the background towards rest, of at most two calls of the medium.
    pub fn tick(&mut self)
        ensures { WorksDisk Settle M.state M.follows self.old self.new }
    {
        self.work(Work::Settle);
    }

    /// Makes a step in the background that works towards this, of at most two calls of the medium.
    /// A host sees nothing of it.
    pub fn work(&mut self, work: Work)
        ensures { WorksDisk work M.state M.follows self.old self.new }
    {
        self.unit.work(work);
    }
}

impl<M: Switch> Disk<M> {
    /// Arms a fuse of the medium: the next `writes` writes and flushes still happen.
    pub fn fuse(&mut self, writes: u64)
        ensures { ArmsDisk M.state (M.fused writes) self.old self.new }
    {
        self.unit.fuse(writes);
    }

    /// Arms a failure of one call of the medium: the one with this number from now, counted from 1.
    pub fn fail(&mut self, call: u64)
        requires { 0 < call }
        ensures { ArmsDisk M.state (M.failing call) self.old self.new }
    {
        self.unit.fail(call);
    }
}

impl<M: Outlet> Disk<M> {
    /// Lets go of the call that the medium's device is to carry out next, if there is one.
    pub fn pop(&mut self)
        ensures { ArmsDisk M.state M.given self.old self.new }
    {
        self.unit.pop();
    }
}

impl<M: Inlet> Disk<M> {
    /// Shows sectors to the medium as its device holds them: where they are, the disk fits what it
    /// fitted before, and where they are not, nothing but the medium has changed.
    pub fn show(&mut self, first: u64, bytes: &[u8]) -> bool
        ensures shown { M.shown first bytes.now result self.old.unit.store.medium
            self.new.unit.store.medium }
        ensures others { IsRearmed self.old self.new }
        ensures unchanged { AreHeld (M.state self.old.unit.store.medium).content first
            (length bytes.now / 512) bytes.now → IsUnchanged (M.state self.old.unit.store.medium)
            (M.state self.new.unit.store.medium) }
        ensures fits { AreHeld (M.state self.old.unit.store.medium).content first
            (length bytes.now / 512) bytes.now
            → (book : Book) → FitsDisk (M.state self.old.unit.store.medium) self.old book
            → FitsDisk (M.state self.new.unit.store.medium) self.new book }
    {
        self.unit.show(first, bytes)
    }
}
