//! The texts by which a disk is known, and the pages that tell them.
ghost use Rattle.std.specs.Prelude.{◌≡◌, ◌↔◌, None, option_map, take, unwrap_or, All, Contains};
ghost use Rattle.std.specs.Prelude.{IfSome, IsSome, IsTrue, SomeIff};
ghost use Rattle.scsi.specs.Identification.{Identification, IsPrintable, IsLegible};
ghost use Rattle.scsi.specs.Inquiry.{standard_data, unit_serial_number, device_identification};
ghost use Rattle.scsi.specs.Inquiry.{inquiry_data, inquiry_size, page_codes};
ghost use Rattle.scsi_commands.specs.Inquiry.{told_size, StaysFrom};

use crate::inquiry::{
    BLOCK_LIMITS, DEVICE_IDENTIFICATION, SUPPORTED_PAGES, UNIT_SERIAL_NUMBER, append, block_limits,
    supported_pages,
};
use std::marker::Model;

/// The texts by which a disk is known, of printable ASCII characters alone (SPC-4, ASCII data field
/// requirements).
#[derive(Clone, Copy, Debug, PartialEq, Eq)]
pub struct Identity {
    vendor: [u8; 8],
    product: [u8; 16],
    revision: [u8; 4],
    serial: [u8; 12],
}

impl Model for Identity {
    ghost Value = { Identification };

    ghost view = { λ who. record {
      vendor = who.vendor;
      product = who.product;
      revision = who.revision;
      serial = who.serial;
    } };

    ghost invariant = { λ who. IsLegible (record {
      vendor = who.vendor;
      product = who.product;
      revision = who.revision;
      serial = who.serial;
    }) };

    ghost inverse = { λ who. record {
      vendor = who.vendor;
      product = who.product;
      revision = who.revision;
      serial = who.serial;
    } };
}

// Whether every byte is a printable ASCII character.
fn is_printable(text: &[u8]) -> bool
    ensures { IsTrue result ↔ All IsPrintable text.now }
{
    text.iter().all(|byte| (0x20..=0x7e).contains(byte))
}

impl Identity {
    /// The identity of these texts: vendor identification, product identification, product revision
    /// level and unit serial number. None where a byte is no printable ASCII character.
    pub fn new(
        vendor: [u8; 8],
        product: [u8; 16],
        revision: [u8; 4],
        serial: [u8; 12],
    ) -> Option<Identity>
        ensures { let who : Identification
            = record { vendor = vendor; product = product; revision = revision; serial = serial }
            in SomeIff result (IsLegible who) who }
    {
        if is_printable(&vendor)
            && is_printable(&product)
            && is_printable(&revision)
            && is_printable(&serial)
        {
            Some(Identity {
                vendor,
                product,
                revision,
                serial,
            })
        } else {
            None
        }
    }

    /// The data that INQUIRY gives, at the front of `to`, and their number of bytes: standard data
    /// (`vital` None), or the vital product data page with this code (SPC-4, 7.8). None where
    /// there is no such page. `limit` is the greatest number of blocks in a transfer, which page
    /// B0h tells. The bytes of `to` behind the data stay as they were.
    pub fn inquiry(&self, vital: Option<u8>, limit: u32, to: &mut [u8; 64]) -> Option<usize>
        ensures size { result ≡ inquiry_size vital }
        ensures data { option_map (λ size. take size to.new) result
            ≡ inquiry_data self.now limit vital }
        ensures rest { StaysFrom (unwrap_or result 0) to.old to.new }

        // The data tell their own length, and page 00h names the pages that there are.
        ensures counted { IfSome result (λ size. told_size vital to.new ≡ size) }
        ensures listed { IsSome result ↔ IfSome vital (Contains page_codes) }
    {
        match vital {
            None => Some(self.standard_data(to)),
            Some(SUPPORTED_PAGES) => Some(supported_pages(to)),
            Some(UNIT_SERIAL_NUMBER) => Some(self.unit_serial_number(to)),
            Some(DEVICE_IDENTIFICATION) => Some(self.device_identification(to)),
            Some(BLOCK_LIMITS) => Some(block_limits(to, limit)),
            Some(_) => None,
        }
    }

    // Writes standard data, and answers their length.
    #[tactic(auto, unfolding(scsi::specs::Inquiry::standard_data))]
    fn standard_data(&self, to: &mut [u8; 64]) -> usize
        ensures size { result ≡ 36 }
        ensures data { take 36 to.new ≡ standard_data self.now }
        ensures counted { told_size None to.new ≡ 36 }
        ensures rest { StaysFrom 36 to.old to.new }
    {
        let end = append(to, 0, &[0x00, 0x00, 0x06, 0x02, 0x1f, 0x00, 0x00, 0x00]);
        let end = append(to, end, &self.vendor);
        let end = append(to, end, &self.product);
        append(to, end, &self.revision)
    }

    // Writes the unit serial number page, and answers its length.
    #[tactic(auto, unfolding(scsi::specs::Inquiry::unit_serial_number))]
    fn unit_serial_number(&self, to: &mut [u8; 64]) -> usize
        ensures size { result ≡ 16 }
        ensures data { take 16 to.new ≡ unit_serial_number self.now }
        ensures counted { told_size (Some UNIT_SERIAL_NUMBER) to.new ≡ 16 }
        ensures rest { StaysFrom 16 to.old to.new }
    {
        let end = append(to, 0, &[0x00, UNIT_SERIAL_NUMBER, 0x00, 0x0c]);
        append(to, end, &self.serial)
    }

    // Writes the device identification page, and answers its length.
    #[tactic(auto, unfolding(scsi::specs::Inquiry::device_identification))]
    fn device_identification(&self, to: &mut [u8; 64]) -> usize
        ensures size { result ≡ 44 }
        ensures data { take 44 to.new ≡ device_identification self.now }
        ensures counted { told_size (Some DEVICE_IDENTIFICATION) to.new ≡ 44 }
        ensures rest { StaysFrom 44 to.old to.new }
    {
        let end = append(to, 0, &[0x00, DEVICE_IDENTIFICATION, 0x00, 0x28]);
        let end = append(to, end, &[0x02, 0x01, 0x00, 0x24]);
        let end = append(to, end, &self.vendor);
        let end = append(to, end, &self.product);
        append(to, end, &self.serial)
    }
}
