//! Which home sectors an event reads.
ghost use Rattle.std.specs.Prelude.{◌≡◌, IfSome, MatchOption, Some};
ghost use Rattle.scsi_unit.specs.Reading.{AreHome};
ghost use Rattle.scsi_unit.specs.UnitValue.{unit_limit};
ghost use Rattle.bot_machine.specs.Reading.{sectors_in, ReadsHome, ReadsNoHome};
ghost use Rattle.bot_machine.specs.Reading.{ExchangeReads, WrapperReads, WrapperReadsNone};

use crate::bulk_out::read_exchange;
use crate::bulk_state::Phase;
use crate::disk::Disk;
use crate::exchange::Exchange;
use medium::Medium;
use scsi_unit::{HomeSectors, Unit};
use spec::Case;

// What is read in the event of the wrapper: in the cases that send, what the command reads.
fn sectors_in(case: Case, wanted: Option<HomeSectors>) -> Option<HomeSectors>
    ensures is { result ≡ sectors_in case wanted }
    ensures some { IfSome result (λ home. wanted ≡ Some home) }
{
    match case {
        Case::C5 | Case::C6 => wanted,
        _ => None,
    }
}

// The home sectors of the blocks that the command of a wrapper in this packet reads at once.
#[tactic(auto, using(crate::proofs::Wrappers::exchange_reads))]
fn wrapper_reads<M: Medium>(unit: &Unit<M>, packet: &[u8]) -> Option<HomeSectors>
    ensures exact { MatchOption result (WrapperReadsNone unit.now packet.now)
        (WrapperReads unit.now packet.now) }
    ensures bounds { IfSome result (λ wanted. AreHome (unit_limit unit.now)
        (M.state unit.now.store.medium).size wanted.first wanted.count) }
{
    match read_exchange(unit, packet) {
        Some(exchange) => exchange_reads(unit, &exchange),
        None => None,
    }
}

// The home sectors of the blocks that an exchange reads at once.
fn exchange_reads<M: Medium>(unit: &Unit<M>, exchange: &Exchange) -> Option<HomeSectors>
    ensures { ExchangeReads (M.state unit.now.store.medium) unit.now exchange.now result }
{
    sectors_in(
        exchange.case,
        unit.home_sectors(exchange.command.block.as_slice()),
    )
}

impl<M: Medium> Disk<M> {
    /// The home sectors of the blocks that this packet to Bulk-Out would have read: those of a READ
    /// of some blocks that is carried out in the event of its wrapper, and none else. A medium that
    /// reads its device on demand is to be shown these before the event.
    pub fn home_sectors(&self, packet: &[u8]) -> Option<HomeSectors>
        ensures exact { MatchOption result (ReadsNoHome self.now packet.now)
            (ReadsHome self.now packet.now) }
        ensures bounds { IfSome result (λ wanted. AreHome (unit_limit self.now.unit)
            (M.state self.now.unit.store.medium).size wanted.first wanted.count) }
    {
        if self.bulk.out_halted {
            return None;
        }
        match self.bulk.phase {
            Phase::Command => wrapper_reads(&self.unit, packet),
            _ => None,
        }
    }
}
