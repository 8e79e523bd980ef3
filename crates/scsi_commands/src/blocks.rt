//! The commands of a block device (SBC-3).

#![tactic(auto, using(crate::proofs::Judged::judging))]

ghost use Rattle.std.specs.Prelude.{◌≡◌, ◌≤◌, ◌++◌, length};
ghost use Rattle.scsi.specs.{declared.command.Transfer.Transfer, Judging.judged};
ghost use Rattle.scsi.specs.Commands.{judged_by, flag_at, form_tests, range_tests, range_10};
ghost use Rattle.scsi.specs.Commands.{range_16, transfer_tests, transfer_10, transfer_16};
ghost use Rattle.scsi.specs.Commands.{transfer_flags, synchronize_flags, read_capacity_10};
ghost use Rattle.scsi.specs.Commands.{read_capacity_16};

use crate::codes::Sense;
use crate::form::{check_form, u16_at, u32_at, u64_at};
use scsi::{BlockRange, Command, Transfer};

/// Disable page out, in byte 1 of READ and WRITE: advice to a cache, which is ignored.
const DPO: u8 = 0x10;

/// Force unit access, in byte 1 of READ and WRITE.
const FUA: u8 = 0x08;

/// Immediate, in byte 1 of SYNCHRONIZE CACHE: leave to answer early, which is not taken.
const IMMED: u8 = 0x02;

/// The service action of READ CAPACITY (16), in byte 1.
const READ_CAPACITY_16_ACTION: u8 = 0x10;

pub(crate) fn read_capacity_10(block: &[u8]) -> Result<Command, Sense>
    ensures { result ≡ judged_by block.now read_capacity_10 }
{
    check_form(block, 10, &[0])?;
    Ok(Command::ReadCapacity10)
}

pub(crate) fn read_capacity_16(block: &[u8]) -> Result<Command, Sense>
    ensures { result ≡ judged_by block.now (read_capacity_16 block.now) }
{
    check_form(block, 16, &[READ_CAPACITY_16_ACTION])?;
    Ok(Command::ReadCapacity16 {
        allocation: u32_at(block, 10),
    })
}

pub(crate) fn transfer_10(block: &[u8], n: u64, limit: u32) -> Result<Transfer, Sense>
    ensures { let transfer = transfer_10 block.now in
        let tests = form_tests 10 transfer_flags block.now ++ transfer_tests n limit transfer in
        result ≡ judged tests transfer }
{
    check_form(block, 10, &[0, FUA, DPO, DPO | FUA])?;
    check_transfer(range_in_10(block), has_fua(block), n, limit)
}

pub(crate) fn transfer_16(block: &[u8], n: u64, limit: u32) -> Result<Transfer, Sense>
    ensures { let transfer = transfer_16 block.now in
        let tests = form_tests 16 transfer_flags block.now ++ transfer_tests n limit transfer in
        result ≡ judged tests transfer }
{
    check_form(block, 16, &[0, FUA, DPO, DPO | FUA])?;
    check_transfer(range_in_16(block), has_fua(block), n, limit)
}

pub(crate) fn synchronize_10(block: &[u8], n: u64) -> Result<BlockRange, Sense>
    ensures { let range = range_10 block.now in
        let tests = form_tests 10 synchronize_flags block.now ++ range_tests n range in
        result ≡ judged tests range }
{
    check_form(block, 10, &[0, IMMED])?;
    check_range(range_in_10(block), n)
}

pub(crate) fn synchronize_16(block: &[u8], n: u64) -> Result<BlockRange, Sense>
    ensures { let range = range_16 block.now in
        let tests = form_tests 16 synchronize_flags block.now ++ range_tests n range in
        result ≡ judged tests range }
{
    check_form(block, 16, &[0, IMMED])?;
    check_range(range_in_16(block), n)
}

// The logical block address and the count of blocks in a command of 10 bytes.
fn range_in_10(block: &[u8]) -> BlockRange
    requires { 10 ≤ length block.now }
    ensures { result ≡ range_10 block.now }
{
    BlockRange {
        address: u64::from(u32_at(block, 2)),
        count: u32::from(u16_at(block, 7)),
    }
}

// The logical block address and the count of blocks in a command of 16 bytes.
fn range_in_16(block: &[u8]) -> BlockRange
    requires { 16 ≤ length block.now }
    ensures { result ≡ range_16 block.now }
{
    BlockRange {
        address: u64_at(block, 2),
        count: u32_at(block, 10),
    }
}

// Whether a READ or a WRITE forces unit access.
fn has_fua(block: &[u8]) -> bool
    requires { 2 ≤ length block.now }
    ensures { result ≡ flag_at 3 block.now }
{
    block[1] & FUA != 0
}

// The transfer of a range, if it has no more blocks than the limit and all are on a medium of `n`
// blocks.
fn check_transfer(range: BlockRange, fua: bool, n: u64, limit: u32) -> Result<Transfer, Sense>
    ensures { let transfer : Transfer =
        record { address = range.address; count = range.count; fua = fua } in
        result ≡ judged (transfer_tests n limit transfer) transfer }
{
    if range.count > limit {
        return Err(Sense::INVALID_FIELD_IN_CDB);
    }
    let BlockRange { address, count } = check_range(range, n)?;
    Ok(Transfer {
        address,
        count,
        fua,
    })
}

// The range, if all its blocks are on a medium of `n` blocks. A range of none may lie at its end.
fn check_range(range: BlockRange, n: u64) -> Result<BlockRange, Sense>
    ensures { result ≡ judged (range_tests n range) range }
{
    match range.address.checked_add(u64::from(range.count)) {
        Some(end) if end <= n => Ok(range),
        _ => Err(Sense::LOGICAL_BLOCK_ADDRESS_OUT_OF_RANGE),
    }
}
