//! A command whose bytes are all there, while the device works for it.
ghost use Rattle.std.specs.Prelude.{◌≡◌, []};
ghost use Rattle.spec.specs.Cases.{IsCase};
ghost use Rattle.scsi_unit.specs.UnitValue.{unit_limit};
ghost use Rattle.bot_machine.specs.Serving.{AwaitsWrapper, AwaitsData, AwaitsEnd, CanCarryOut};
ghost use Rattle.bot_machine.specs.LaggingParts.{CanAdvance, PacketTaken, CommandBegun};
ghost use Rattle.bot_machine.specs.LaggingParts.{CommandAdvanced};
ghost use Rattle.bot_machine.specs.LaggingParts.{AnswerLaidOut, want_in};

use crate::bulk_out::{conclude_wrong_size, fill, read_exchange, size_of_next, take_more};
use crate::bulk_state::{BulkState, Phase};
use crate::exchange::{Exchange, When, when_carried_out};
use medium::Medium;
use scsi_unit::{Command, Progress, Unit, Want};
use spec::Status;
use std::mem;

// A command that is not over, and what it wants next.
#[derive(Clone, Copy)]
pub(crate) struct Wanted {
    pub(crate) command: Command,
    pub(crate) want: Want,
}

/// A command that is not over, and its exchange, if it takes no data. That of one whose data came
/// is still on the line.
#[derive(Drop)]
pub(crate) struct Pending {
    pub(crate) wrapper: Option<Exchange>,
    pub(crate) wanted: Wanted,
}

/// Takes a packet where a command wrapper is expected, and begins a command that takes no data.
/// What is pending of it, if the device has to work.
#[inline(never)]
#[tactic(auto, using(crate::proofs::OutPackets::nothing_read))]
pub(crate) fn open_packet<M: Medium>(
    unit: &mut Unit<M>,
    bulk: &mut BulkState,
    transfer: &mut [u8],
    packet: &[u8],
) -> Option<Pending>
    requires { AwaitsWrapper (unit_limit unit.old) bulk.old transfer.old }
    ensures { PacketTaken M.state M.follows unit.old bulk.old transfer.old packet.now result
        unit.new bulk.new transfer.new }
{
    let Some(exchange) = read_exchange(unit, packet) else {
        bulk.lock();
        return None;
    };
    match when_carried_out(exchange.case) {
        When::AtOnce => {
            let wanted = begin(unit, bulk, transfer, &exchange, &[])?;
            Some(Pending {
                wrapper: Some(exchange),
                wanted,
            })
        }
        When::AfterData => {
            bulk.expect_data(exchange);
            None
        }
        When::Never => {
            bulk.conclude(&exchange, exchange.case, 0, Status::PhaseError);
            None
        }
    }
}

/// Takes a packet where data is expected, and begins the command behind the last.
pub(crate) fn data_packet<M: Medium>(
    unit: &mut Unit<M>,
    bulk: &mut BulkState,
    transfer: &mut [u8],
    packet: &[u8],
) -> Option<Pending>
    requires { AwaitsData unit.old bulk.old transfer.old }
    ensures { PacketTaken M.state M.follows unit.old bulk.old transfer.old packet.now result
        unit.new bulk.new transfer.new }
{
    let Phase::DataOut(taking) = &mut bulk.phase else {
        unreachable!()
    };
    let most = bulk.size.bytes();
    if taking.due > most && packet.len() == most as usize {
        take_more(taking, transfer, packet, most);
        return None;
    }
    end_packet(unit, bulk, transfer, packet)
}

// Takes a packet that ends the data, or has a wrong size.
#[inline(never)]
fn end_packet<M: Medium>(
    unit: &mut Unit<M>,
    bulk: &mut BulkState,
    transfer: &mut [u8],
    packet: &[u8],
) -> Option<Pending>
    requires { AwaitsEnd unit.old bulk.old transfer.old packet.now }
    ensures { PacketTaken M.state M.follows unit.old bulk.old transfer.old packet.now result
        unit.new bulk.new transfer.new }
{
    let Phase::DataOut(mut taking) = mem::replace(&mut bulk.phase, Phase::Command) else {
        unreachable!()
    };
    let most = bulk.size.bytes();
    if packet.len() != size_of_next(taking.due, most) {
        conclude_wrong_size(bulk, taking.exchange.command.tag, taking.due);
        return None;
    }
    let size = taking.exchange.intended.size() as usize;
    fill(transfer, &mut taking.filled, packet, size);
    taking.due = 0;
    let wanted = begin(
        unit,
        bulk,
        &mut [],
        &taking.exchange,
        &transfer[..taking.filled],
    )?;
    bulk.phase = Phase::DataOut(taking);
    Some(Pending {
        wrapper: None,
        wanted,
    })
}

// Begins the command of an exchange over the bytes taken. What it wants of the device, if it does.
fn begin<M: Medium>(
    unit: &mut Unit<M>,
    bulk: &mut BulkState,
    out: &mut [u8],
    exchange: &Exchange,
    taken: &[u8],
) -> Option<Wanted>
    requires { CanCarryOut unit.old exchange.now taken.now out.old }
    ensures { CommandBegun M.state M.follows unit.old bulk.old exchange.now taken.now result
        unit.new bulk.new out.new }
{
    let parsed = unit.command(exchange.command.block.as_slice());
    let command = match &parsed {
        Ok(command) => Some(*command),
        Err(_) => None,
    };
    let progress = unit.begin(parsed, taken, out);
    let want = settle(bulk, exchange, progress)?;
    match command {
        Some(command) => Some(Wanted { command, want }),
        None => unreachable!(),
    }
}

/// Makes one step of a command that takes no data. What it wants next, if it is not over.
pub(crate) fn advance_at_once<M: Medium>(
    unit: &mut Unit<M>,
    bulk: &mut BulkState,
    out: &mut [u8],
    exchange: &Exchange,
    wanted: Wanted,
) -> Option<Want>
    requires { CanAdvance unit.old exchange.now [] wanted out.old }
    ensures { CommandAdvanced M.state M.follows unit.old bulk.old exchange.now [] wanted result
        unit.new bulk.new out.new }
{
    let progress = unit.go_on(wanted.command, wanted.want, &[], out);
    settle(bulk, exchange, progress)
}

/// The same of one over the bytes that were taken for it.
pub(crate) fn advance_taken<M: Medium>(
    unit: &mut Unit<M>,
    bulk: &mut BulkState,
    exchange: &Exchange,
    taken: &[u8],
    wanted: Wanted,
) -> Option<Want>
    requires { CanAdvance unit.old exchange.now taken.now wanted [] }
    ensures { CommandAdvanced M.state M.follows unit.old bulk.old exchange.now taken.now wanted
        result unit.new bulk.new [] }
{
    let progress = unit.go_on(wanted.command, wanted.want, taken, &mut []);
    settle(bulk, exchange, progress)
}

/// Lays out the answer of a command that is over. What it wants, if it is not.
pub(crate) fn settle(bulk: &mut BulkState, exchange: &Exchange, progress: Progress) -> Option<Want>
    requires { IsCase exchange.now.case exchange.now.command.host exchange.now.intended }
    ensures want { result ≡ want_in progress }
    ensures line { AnswerLaidOut bulk.old exchange.now progress bulk.new }
{
    match progress {
        Progress::Done(answer) => {
            bulk.answer(exchange, &answer);
            None
        }
        Progress::Wants(want) => Some(want),
    }
}
