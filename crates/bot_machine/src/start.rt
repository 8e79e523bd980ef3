//! How a disk starts.
ghost use Rattle.std.specs.Prelude.{◌≡◌, ◌*◌, ℕ, length, IfOk, IfErr, IfSome, MatchResult};
ghost use Rattle.medium.specs.Moments.{EachCut, LeavesOnly};
ghost use Rattle.scsi_unit.specs.Starting.{HasLimit, IsOursForSome};
ghost use Rattle.spec.specs.{Exchange.{at_rest}, Packets.{bytes_of}};
ghost use Rattle.bot_machine.specs.Device.{device_by, device_of, device_with};
ghost use Rattle.bot_machine.specs.Opening.{IsOpened, IsNotOpened, StartLeaves, LeavesMedium};
ghost use Rattle.bot_machine.specs.Opening.{StartsDisk, RefusesDisk, DiskStartFromPost};
ghost use Rattle.spec.specs.declared.packet_size.PacketSize.TheVariants.{High512};

use crate::DiskSetup;
use crate::bulk_state::BulkState;
use crate::disk::Disk;
use medium::Medium;
use scsi_unit::{Identity, RecoveredMedium, Retiring, StartError, StartFault, Unit};
use spec::PacketSize;
use std::alloc::Global;

impl<M: Medium> Disk<M> {
    /// Starts a disk on a medium, for packets of at most 512 bytes (high speed), one that retires
    /// late: see `start_by`.
    ///
    /// # Errors
    ///
    /// Those of `start_by`.
    pub fn start(alloc: Global, medium: M, identity: Identity) -> Result<Disk<M>, StartError<M>>
        ensures { MatchResult result
            (λ disk. StartsDisk M.state M.follows medium (device_of identity High512) disk)
            (λ error. RefusesDisk M.state M.follows medium error.medium error.fault) }
    {
        Disk::start_by(alloc, medium, identity, PacketSize::High512, Retiring::Late)
    }

    /// Starts a disk on a medium, for packets of this size, one that retires late: see `start_by`.
    ///
    /// # Errors
    ///
    /// Those of `start_by`.
    pub fn start_with(
        alloc: Global,
        medium: M,
        identity: Identity,
        size: PacketSize,
    ) -> Result<Disk<M>, StartError<M>>
        ensures ok { IfOk result (λ disk. IsOpened
            (M.state medium) (M.state disk.unit.store.medium) (device_of identity size) disk) }
        ensures err { IfErr result (λ error.
            IsNotOpened (M.state medium) (M.state error.medium) error.fault) }
        ensures leaves { MatchResult result
            (λ disk. StartLeaves (M.state medium) (M.state disk.unit.store.medium))
            (λ error. StartLeaves (M.state medium) (M.state error.medium)) }
        ensures limit { (limit : ℕ) → EachCut (IsOursForSome (M.state medium).size) (M.state medium)
            → EachCut (HasLimit (M.state medium).size limit) (M.state medium)
            → MatchResult result
            (λ disk. LeavesOnly (HasLimit (M.state medium).size limit)
            (M.state medium) (M.state disk.unit.store.medium))
            (λ error. LeavesOnly (HasLimit (M.state medium).size limit)
            (M.state medium) (M.state error.medium)) }
        ensures medium { MatchResult result
            (λ disk. LeavesMedium M.state M.follows medium disk.unit.store.medium)
            (λ error. LeavesMedium M.state M.follows medium error.medium) }
    {
        Disk::start_by(alloc, medium, identity, size, Retiring::Late)
    }

    /// Starts a disk on a medium, for packets of this size: recovers the medium, and makes the room
    /// for all that is kept in memory. A command block wrapper is expected, the unit attention of a
    /// power on is pending, and the write cache is enabled. The blocks are those for which the
    /// contents of the medium stood, and the room is that for a transfer over them. Where every
    /// image was ours and had one limit, every image that a cut may leave has it. The disk retires
    /// as is asked here, where its log allows it.
    ///
    /// # Errors
    ///
    /// The fault of the recovery; once the medium is recovered `NoMemory` alone. The medium comes
    /// back.
    pub fn start_by(
        alloc: Global,
        medium: M,
        identity: Identity,
        size: PacketSize,
        retiring: Retiring,
    ) -> Result<Disk<M>, StartError<M>>
        ensures { MatchResult result
            (λ disk. StartsDisk M.state M.follows medium (device_by identity size retiring) disk)
            (λ error. RefusesDisk M.state M.follows medium error.medium error.fault) }
    {
        let unit = Unit::start_by(alloc, medium, identity, retiring)?;
        Disk::over(alloc, unit, size)
    }

    /// Starts a disk on a medium that was recovered already: it makes the room for all that is kept
    /// in memory, and no call of the medium. On a medium to which nothing was done since it was
    /// recovered with this answer it is as one that `start_by` starts.
    ///
    /// # Errors
    ///
    /// `NoMemory`. The medium comes back.
    pub fn start_from(
        alloc: Global,
        on: RecoveredMedium<M>,
        setup: DiskSetup,
    ) -> Result<Disk<M>, StartError<M>>
        ensures { MatchResult result
            (λ disk. DiskStartFromPost M.state on.found on.medium (device_with setup) disk)
            (λ error. (error.fault ≡ StartFault.NoMemory) × (error.medium ≡ on.medium)) }
    {
        let DiskSetup {
            identity,
            size,
            retiring,
        } = setup;
        let unit = Unit::start_from(alloc, on, identity, retiring)?;
        Disk::over(alloc, unit, size)
    }

    // A disk over a unit that has just started.
    fn over(alloc: Global, unit: Unit<M>, size: PacketSize) -> Result<Disk<M>, StartError<M>>
        ensures { MatchResult result
            (λ disk. (disk.line ≡ at_rest (bytes_of size)) × (disk.unit ≡ unit))
            (λ error. (error.fault ≡ StartFault.NoMemory) × (error.medium ≡ unit.store.medium)) }
    {
        let Some(transfer) = buffer_for(alloc, unit.limit()) else {
            return Err(StartError {
                fault: StartFault::NoMemory,
                medium: unit.into_medium(),
            });
        };
        Ok(Disk {
            unit,
            bulk: BulkState::at_rest(size),
            transfer,
        })
    }
}

// A buffer for a transfer of `blocks` blocks; `None` for want of memory.
fn buffer_for(alloc: Global, blocks: u32) -> Option<Vec<u8>>
    ensures { IfSome result (λ made. length made.items ≡ 512 * blocks) }
{
    vec![in alloc; 0; 512 * blocks as usize].ok()
}
