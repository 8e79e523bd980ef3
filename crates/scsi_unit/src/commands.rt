//! Commands, each by its own function.
ghost use Rattle.std.specs.Prelude.{◌≡◌, ◌≤◌, ◌*◌, ℕ, List, [], length};
ghost use Rattle.std.specs.Prelude.{◌<◌, take, min, unwrap_or, IfOk, Ok};
ghost use Rattle.scsi.specs.{FixedSense.fixed_sense, Waiting.{reported, after_report}};
ghost use Rattle.scsi.specs.{Inquiry.{inquiry_data, inquiry_size}, ModePage.mode_data};
ghost use Rattle.scsi.specs.{Capacity.{capacity_10, capacity_16}, Rules.moves};
ghost use Rattle.blocks.specs.Running.{ComesBy};
ghost use Rattle.scsi_unit.specs.UnitValue.{unit_limit, intention_of, answer_of};
ghost use Rattle.scsi_unit.specs.Serving.{command_for};
ghost use Rattle.scsi_unit.specs.Reading.{read_of};
ghost use Rattle.scsi_unit.specs.Asking.{CanCarryOut, CanPerform};
ghost use Rattle.scsi_unit.specs.Calls.{calls_of, MakesAtMost, MakesFew, SendsOver};
ghost use Rattle.scsi_unit.specs.Performing.{Performs, Spares, silent};

use crate::Unit;
use crate::checks::BLOCK;
use byteorder::{BigEndian, ByteOrder};
use medium::Medium;
use scsi_commands::{CACHING, Command, Sense, mode_sense};

// Sends data, of which an allocation length cuts what is behind it.
fn send(bytes: &[u8], allocation: usize, out: &mut [u8]) -> usize
    requires { min allocation (length bytes.now) ≤ length out.old }
    ensures size { result ≡ min allocation (length bytes.now) }
    ensures sent { take result out.new ≡ take allocation bytes.now }
{
    let size = bytes.len().min(allocation);
    out[..size].copy_from_slice(&bytes[..size]);
    size
}

// The answer of a command that sends no data.
fn silent(done: Result<(), Sense>) -> Result<usize, Sense>
    ensures answer { (out : List ℕ) → answer_of result out ≡ silent done }
    ensures none { IfOk result (λ sent. sent ≡ 0) }
{
    match done {
        Ok(()) => Ok(0),
        Err(sense) => Err(sense),
    }
}

// The data of READ CAPACITY (10), for a medium of `n` blocks.
#[tactic(auto, unfolding(scsi::specs::Capacity::capacity_10))]
fn capacity_10(n: u64) -> [u8; 8]
    requires { n ≤ 2147483648 }
    ensures { result ≡ capacity_10 n }
{
    let mut bytes = [0; 8];
    BigEndian::write_u32(&mut bytes, n.saturating_sub(1) as u32);
    BigEndian::write_u32(&mut bytes[4..], BLOCK);
    bytes
}

// The data of READ CAPACITY (16), for a medium of `n` blocks.
#[tactic(auto, unfolding(scsi::specs::Capacity::capacity_16))]
fn capacity_16(n: u64) -> [u8; 32]
    ensures { result ≡ capacity_16 n }
{
    let mut bytes = [0; 32];
    BigEndian::write_u64(&mut bytes, n.saturating_sub(1));
    BigEndian::write_u32(&mut bytes[8..], BLOCK);
    bytes
}

impl<M: Medium> Unit<M> {
    /// Performs the command of a command block, if it is not refused.
    pub(crate) fn perform_block(
        &mut self,
        block: &[u8],
        taken: &[u8],
        out: &mut [u8],
    ) -> Result<usize, Sense>
        requires { CanCarryOut self.old block.now taken.now out.old }
        ensures performs { Performs (M.state self.old.store.medium)
            (M.state self.new.store.medium) (command_for self.old block.now) taken.now self.old
            (answer_of result out.new) self.new }
        ensures spares { Spares (M.state self.old.store.medium)
            (M.state self.new.store.medium) (command_for self.old block.now) taken.now self.old
            (answer_of result out.new) self.new }
        ensures calls { MakesFew (M.state self.old.store.medium)
            (M.state self.new.store.medium) block.now taken.now self.old }
        ensures sends { SendsOver (ComesBy M.state M.follows) (intention_of self.old block.now)
            (unit_limit self.old) result self.old.store self.new.store }
    {
        let command = self.command(block)?;
        self.perform(command, taken, out)
    }

    /// Performs a command.
    #[tactic(auto, using(crate::proofs::CommandCalls::no_calls))]
    pub(crate) fn perform(
        &mut self,
        command: Command,
        taken: &[u8],
        out: &mut [u8],
    ) -> Result<usize, Sense>
        requires { CanPerform self.old command taken.now out.old }
        ensures performs { Performs (M.state self.old.store.medium)
            (M.state self.new.store.medium) (Ok command) taken.now self.old
            (answer_of result out.new) self.new }
        ensures spares { Spares (M.state self.old.store.medium)
            (M.state self.new.store.medium) (Ok command) taken.now self.old
            (answer_of result out.new) self.new }
        ensures bounded { MakesAtMost
            (calls_of command taken.now self.old.write_cache self.old.store.cached)
            (read_of (Ok command)) (M.state self.old.store.medium)
            (M.state self.new.store.medium) self.old }
        ensures sends { SendsOver (ComesBy M.state M.follows) (moves command) (unit_limit self.old)
            result self.old.store self.new.store }
    {
        match command {
            Command::TestUnitReady => Ok(0),
            Command::RequestSense { allocation } => Ok(self.report(allocation, out)),
            Command::Inquiry { page, allocation } => Ok(self.inquire(page, allocation, out)),
            Command::ModeSelect { length } => silent(self.select(length, taken)),
            Command::ModeSense {
                control,
                allocation,
                ..
            } => Ok(self.sense_mode(control, allocation, out)),
            Command::ReadCapacity10 => Ok(send(&capacity_10(self.store.blocks()), 8, out)),
            Command::ReadCapacity16 { allocation } => {
                Ok(send(&capacity_16(self.store.blocks()), allocation as usize, out))
            }
            Command::Read10(transfer) | Command::Read16(transfer) => self.read(transfer, out),
            Command::Write10(transfer) | Command::Write16(transfer) => {
                silent(self.write(transfer, taken))
            }
            Command::SynchronizeCache10(_) | Command::SynchronizeCache16(_) => {
                silent(self.synchronize())
            }
        }
    }

    // REQUEST SENSE: what is reported waits no longer.
    fn report(&mut self, allocation: u8, out: &mut [u8]) -> usize
        requires { min allocation 18 ≤ length out.old }
        ensures size { result ≡ min allocation 18 }
        ensures sent { take result out.new
            ≡ take allocation (fixed_sense (reported self.old.kept)) }
        ensures left { self.new ≡ record self.old { kept = after_report self.old.kept } }
    {
        let sense = self.kept.take();
        send(&sense.encode18(), usize::from(allocation), out)
    }

    // INQUIRY: standard data, or a vital product data page.
    fn inquire(&self, page: Option<u8>, allocation: u16, out: &mut [u8]) -> usize
        requires { min allocation (unwrap_or (inquiry_size page) 0) ≤ length out.old }
        ensures size { result ≡ min allocation (unwrap_or (inquiry_size page) 0) }
        ensures sent { take result out.new
            ≡ take allocation
            (unwrap_or (inquiry_data self.now.identity (unit_limit self.now) page) []) }
    {
        let mut bytes = [0; 64];
        let size = self
            .identity
            .inquiry(page, self.store.limit(), &mut bytes)
            .unwrap_or(0);
        send(&bytes[..size], usize::from(allocation), out)
    }

    // MODE SENSE: the caching mode page, which is all pages too.
    fn sense_mode(&self, control: u8, allocation: u8, out: &mut [u8]) -> usize
        requires not_saved { control < 3 }
        requires room { min allocation 24 ≤ length out.old }
        ensures size { result ≡ min allocation 24 }
        ensures sent { take result out.new
            ≡ take allocation (mode_data control self.now.write_cache) }
    {
        let mut bytes = [0; 24];
        let size = mode_sense(control, CACHING, 0, self.write_cache, &mut bytes).unwrap_or(0);
        send(&bytes[..size], usize::from(allocation), out)
    }
}
