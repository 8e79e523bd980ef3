//! What the disk does with a packet to Bulk-Out.
ghost use Rattle.std.specs.Prelude.{◌≡◌, ◌≤◌, ◌+◌, ◌-◌, ◌*◌, ◌++◌, ℕ, List, Result};
ghost use Rattle.std.specs.Prelude.{MatchOption, None, false, length, min, take};
ghost use Rattle.spec.specs.Cases.{size_of_way};
ghost use Rattle.spec.specs.CommandWrapper.{SpellsNone};
ghost use Rattle.scsi.specs.Sense.{Sense};
ghost use Rattle.spec.specs.StatusWrapper.{status_wrapper};
ghost use Rattle.spec.specs.declared.status.Status.TheVariants.{PhaseError};
ghost use Rattle.scsi_unit.specs.Calls.{IsBounded};
ghost use Rattle.scsi_unit.specs.Serving.{IsSparing};
ghost use Rattle.scsi_unit.specs.UnitValue.{unit_limit};
ghost use Rattle.bot_machine.specs.Disk.{Tells};
ghost use Rattle.spec.specs.Exchange.{Script, finished};
ghost use Rattle.bot_machine.specs.Refinement.{line_of, line_with, LaysOut};
ghost use Rattle.bot_machine.specs.Serving.{IsBegun, CarriesOutOn, ServesPacket, HandsOn};
ghost use Rattle.bot_machine.specs.Serving.{EndsData, CanCarryOut};
ghost use Rattle.bot_machine.specs.Refinement.{LiesIn};
ghost use Rattle.bot_machine.specs.Serving.{AwaitsWrapper, AwaitsData, AwaitsEnd, HasMoreDue};
ghost use Rattle.scsi_unit.specs.Reading.{IsOneOf};
ghost use Rattle.bot_machine.specs.Reading.{sectors_for, WrapperReadsAt};

use crate::bulk_state::{BulkState, Phase, Taking};
use crate::command::read_cbw;
use crate::exchange::{Exchange, When, after_failure, size_sent, way_of_intent, when_carried_out};
use crate::status::write_csw;
use crate::table::case_of;
use medium::Medium;
use scsi_unit::{Intent, Unit};
use spec::Status;
use std::mem;

// Carries out the command of an exchange over the bytes taken, and lays out what is sent. One that
// waited for its data sends none, so that the bytes taken may lie in the buffer itself.
fn carry_out<M: Medium>(
    unit: &mut Unit<M>,
    bulk: &mut BulkState,
    out: &mut [u8],
    exchange: &Exchange,
    bytes: &[u8],
)
    requires { CanCarryOut unit.old exchange.now bytes.now out.old }
    ensures carried_out { (buffer : List ℕ) (left : Script)
        → LiesIn buffer exchange.now.case out.new → CarriesOutOn
        (M.state unit.old.store.medium) (M.state unit.new.store.medium) unit.old unit.new
        (line_with bulk.old left) (line_of bulk.new buffer) exchange.now bytes.now }
    ensures spares { (answer : Result (List ℕ) Sense)
        × IsSparing (M.state unit.old.store.medium) (M.state unit.new.store.medium)
        exchange.now.command.block.items bytes.now unit.old answer unit.new
        × IsBounded (M.state unit.old.store.medium) (M.state unit.new.store.medium)
        exchange.now.command.block.items bytes.now unit.old
        × ((buffer : List ℕ) → LiesIn buffer exchange.now.case out.new
        → Tells answer (line_of bulk.new buffer)) }
    ensures passes { HandsOn M.state M.follows
        (IsOneOf (sectors_for unit.old exchange.now.command.block.items))
        unit.old unit.new bulk.old bulk.new }
{
    match unit.carry_out(exchange.command.block.as_slice(), bytes, out) {
        Ok(size) => {
            let size = size_sent(exchange.case, size);
            bulk.conclude(exchange, exchange.case, size, Status::Passed);
        }
        Err(_) => bulk.conclude(exchange, after_failure(exchange.case), 0, Status::Failed),
    }
}

// The exchange that a packet begins, if it spells a command wrapper.
pub(crate) fn read_exchange<M: Medium>(unit: &Unit<M>, packet: &[u8]) -> Option<Exchange>
    ensures { MatchOption result (SpellsNone packet.now) (IsBegun unit.now packet.now) }
{
    let command = read_cbw(packet).ok()?;
    let intended = way_of_intent(unit.intend(command.block.as_slice()));
    Some(Exchange {
        case: case_of(command.host, intended),
        command,
        intended,
    })
}

/// Takes a packet where a command wrapper is expected. It stands apart, so that the code that runs
/// for a packet of data is short.
#[inline(never)]
#[tactic(auto, using(crate::proofs::OutPackets::nothing_read))]
pub(crate) fn open<M: Medium>(
    unit: &mut Unit<M>,
    bulk: &mut BulkState,
    transfer: &mut [u8],
    packet: &[u8],
)
    requires { AwaitsWrapper (unit_limit unit.old) bulk.old transfer.old }
    ensures serves { ServesPacket
        (M.state unit.old.store.medium) (M.state unit.new.store.medium) unit.old unit.new
        (line_of bulk.old transfer.old) (line_of bulk.new transfer.new) false
        finished packet.now }
    ensures passes { HandsOn M.state M.follows (WrapperReadsAt unit.old packet.now)
        unit.old unit.new bulk.old bulk.new }
{
    let Some(exchange) = read_exchange(unit, packet) else {
        bulk.lock();
        return;
    };
    match when_carried_out(exchange.case) {
        When::AtOnce => carry_out(unit, bulk, transfer, &exchange, &[]),
        When::AfterData => {
            let due = exchange.command.host.size();
            bulk.phase = Phase::DataOut(Taking {
                exchange,
                filled: 0,
                due,
            });
        }
        When::Never => bulk.conclude(&exchange, exchange.case, 0, Status::PhaseError),
    }
}

/// Takes a packet where data is expected. The intended bytes that came already are the first ones
/// of `transfer`. Where more data is due behind the packet, what is pending changes in its place,
/// since a long transfer is made of such packets.
#[tactic(auto, using(crate::proofs::OutPackets::none_besides))]
pub(crate) fn take_data<M: Medium>(
    unit: &mut Unit<M>,
    bulk: &mut BulkState,
    transfer: &mut [u8],
    packet: &[u8],
)
    requires { AwaitsData unit.old bulk.old transfer.old }
    ensures serves { ServesPacket
        (M.state unit.old.store.medium) (M.state unit.new.store.medium) unit.old unit.new
        (line_of bulk.old transfer.old) (line_of bulk.new transfer.new) false
        (line_of bulk.old transfer.old).left packet.now }
    ensures passes { HandsOn M.state M.follows (λ _. ⊥) unit.old unit.new bulk.old bulk.new }
{
    let Phase::DataOut(pending) = &mut bulk.phase else {
        unreachable!()
    };
    let most = bulk.size.bytes();
    if pending.due > most && packet.len() == most as usize {
        take_more(pending, transfer, packet, most);
        return;
    }
    end_data(unit, bulk, transfer, packet);
}

/// Takes a packet of the greatest size, behind which more data is due, or so many at once.
pub(crate) fn take_more(pending: &mut Taking, taken: &mut [u8], packet: &[u8], most: u32)
    requires { HasMoreDue pending.old taken.old packet.now most }
    ensures exchange { pending.new.exchange ≡ pending.old.exchange }
    ensures due { pending.new.due ≡ pending.old.due - most }
    ensures filled { pending.new.filled ≡ min (size_of_way pending.old.exchange.intended)
        (pending.old.filled + length packet.now) }
    ensures bytes { take pending.new.filled taken.new
        ≡ take (size_of_way pending.old.exchange.intended)
        (take pending.old.filled taken.old ++ packet.now) }
{
    let size = pending.exchange.intended.size() as usize;
    pending.due -= most;
    fill(taken, &mut pending.filled, packet, size);
}

// Takes a packet that ends the data, or has a wrong size. It stands apart, so that the code that
// runs for each other packet of a transfer is short.
#[inline(never)]
fn end_data<M: Medium>(unit: &mut Unit<M>, bulk: &mut BulkState, transfer: &mut [u8], packet: &[u8])
    requires { AwaitsEnd unit.old bulk.old transfer.old packet.now }
    ensures { EndsData M.state M.follows unit.old unit.new bulk.old bulk.new transfer.old
        transfer.new packet.now }
{
    let Phase::DataOut(pending) = mem::replace(&mut bulk.phase, Phase::Command) else {
        unreachable!()
    };
    let Taking {
        exchange,
        mut filled,
        due,
    } = pending;
    let most = bulk.size.bytes();
    if packet.len() != size_of_next(due, most) {
        conclude_wrong_size(bulk, exchange.command.tag, due);
        return;
    }
    let size = exchange.intended.size() as usize;
    fill(transfer, &mut filled, packet, size);
    carry_out(unit, bulk, &mut [], &exchange, &transfer[..filled]);
}

/// How many bytes the next packet has, where `due` bytes are due.
pub(crate) fn size_of_next(due: u32, most: u32) -> usize
    ensures { result ≡ min due most }
{
    due.min(most) as usize
}

/// Tells that a packet had a wrong size, where `due` bytes were due.
pub(crate) fn conclude_wrong_size(bulk: &mut BulkState, tag: u32, due: u32)
    ensures { LaysOut bulk.old 0 None (status_wrapper tag due PhaseError) bulk.new }
{
    let status = write_csw(tag, due, Status::PhaseError);
    bulk.lay_out(0, None, status);
}

/// Appends a packet to the first bytes of a buffer, up to `size` bytes in all.
pub(crate) fn fill(buffer: &mut [u8], filled: &mut usize, packet: &[u8], size: usize)
    requires before { filled.old ≤ size }
    requires room { size ≤ length buffer.old }
    ensures bytes { take filled.new buffer.new
        ≡ take size (take filled.old buffer.old ++ packet.now) }
    ensures filled { filled.new ≡ min size (filled.old + length packet.now) }
{
    let from = *filled;
    let more = packet.len().min(size - from);
    // The count goes first, so that nothing is kept across the copy.
    *filled = from + more;
    buffer[from..from + more].copy_from_slice(&packet[..more]);
}
