//! Something starts behind a handle, and stops.
ghost use Rattle.std.specs.Prelude.{◌≡◌, ◌≢◌, ◌⊎◌, MatchOption, Some};
ghost use Rattle.std.specs.Option.{SomeIff};
ghost use Rattle.spec.specs.Packets.{bytes_of};
ghost use Rattle.scsi.specs.Identification.{IsLegible};
ghost use Rattle.disk_machine.specs.Starting.{identity_of};
ghost use Rattle.calls.specs.Starting.{StartsDisk, StartsStore, Opens, Stops, started};
ghost use Rattle.calls.specs.Starting.{Recovers};

use crate::handle::UsbDisk;
use crate::held::{DiskPlan, Held, ImageWork, Service};
use crate::moves::{adopt, holds_any, reclaim};
use crate::options::{UsbDiskOptions, kept_by};
use crate::recover::first_call;
use bot_machine::{Identity, PacketSize, StartFault};
use disk_machine::{
    ACK, BAD_IDENTITY, BAD_PACKET_SIZE, EMPTY, STARTED, UsbDiskIdentity, number_of,
};
use image_calls::{Opening, Reach};
use std::alloc::Global;

/// A disk starts behind a handle that holds nothing.
pub fn start_disk(alloc: Global, h: &mut UsbDisk, options: &UsbDiskOptions) -> u32
    ensures { StartsDisk options.now h.old.held h.new.held result }
{
    if holds_any(h) {
        return STARTED;
    }
    let Some(size) = packet_size(options.packet) else {
        return BAD_PACKET_SIZE;
    };
    let Some(identity) = read_identity(&options.identity) else {
        return BAD_IDENTITY;
    };
    let kept = kept_by(options.kept);
    let plan = DiskPlan {
        identity,
        size,
        kept,
    };
    recover(alloc, h, Service::Disk(plan), options.sectors)
}

/// A store starts behind a handle that holds nothing. Of the options it reads how many sectors the
/// device has, and how many records are kept.
pub fn start_store(alloc: Global, h: &mut UsbDisk, options: &UsbDiskOptions) -> u32
    ensures { StartsStore options.now h.old.held h.new.held result }
{
    if holds_any(h) {
        return STARTED;
    }
    let store = Service::Store(kept_by(options.kept));
    recover(alloc, h, store, options.sectors)
}

/// What a handle holds goes.
pub fn stop(alloc: Global, h: &mut UsbDisk) -> u32
    ensures { Stops h.old.held h.new.held result }
{
    let Some(_held) = reclaim(h, alloc) else {
        return EMPTY;
    };
    ACK
}

/// Work on an image goes into a handle that holds nothing.
pub(crate) fn open(
    alloc: Global,
    h: &mut UsbDisk,
    work: ImageWork,
    sectors: u64,
    reach: Reach,
) -> u32
    ensures { Opens work sectors reach h.old.held h.new.held result }
{
    let held = first_read(alloc, work, sectors, reach);
    hold(alloc, h, held)
}

// What is started goes into a handle that holds nothing. Its image is to be recovered first.
fn recover(alloc: Global, h: &mut UsbDisk, what: Service, sectors: u64) -> u32
    ensures { Recovers what sectors h.old.held h.new.held result }
{
    match first_call(alloc, sectors, what) {
        Some(held) => hold(alloc, h, held),
        None => number_of(StartFault::NoMemory),
    }
}

// This goes into a handle that holds nothing, or there is no memory for it.
fn hold(alloc: Global, h: &mut UsbDisk, held: Held) -> u32
    ensures { ((result ≡ 0) × (h.new.held ≡ Some held))
        ⊎ ((result ≡ 1) × (h.new.held ≡ h.old.held)) }
{
    match Box::new(alloc, held) {
        Ok(held) => {
            adopt(h, alloc, held);
            ACK
        }
        Err(_) => number_of(StartFault::NoMemory),
    }
}

// The first sectors are to be read. Of a device without any there is no image.
fn first_read(alloc: Global, work: ImageWork, sectors: u64, reach: Reach) -> Held
    ensures { result ≡ started work sectors reach }
{
    if sectors == 0 {
        return Held::NoWork(StartFault::BadSuper);
    }
    Held::Opening(Opening::new(alloc, sectors, reach), work)
}

// The size of a packet of `bytes` bytes.
fn packet_size(bytes: u32) -> Option<PacketSize>
    ensures { MatchOption result ((bytes ≢ 64) × (bytes ≢ 512)) (λ size. bytes ≡ bytes_of size) }
{
    match bytes {
        64 => Some(PacketSize::Full64),
        512 => Some(PacketSize::High512),
        _ => None,
    }
}

// The identity of these texts.
fn read_identity(identity: &UsbDiskIdentity) -> Option<Identity>
    ensures { SomeIff result (IsLegible (identity_of identity.now)) (identity_of identity.now) }
{
    let UsbDiskIdentity {
        vendor,
        product,
        revision,
        serial,
    } = *identity;
    Identity::new(vendor, product, revision, serial)
}
