//! The commands of any device (SPC-4).

#![tactic(auto, using(crate::proofs::Judged::judging))]

ghost use Rattle.std.specs.Prelude.{◌≡◌, ◌<◌, ◌≤◌, length};
ghost use Rattle.scsi.specs.{Judging.judged, Commands.{judged_by, test_unit_ready, request_sense}};
ghost use Rattle.scsi.specs.Commands.{inquiry, inquiry_page, inquiry_tests, mode_select};
ghost use Rattle.scsi.specs.Commands.{mode_sense, mode_sense_tests};

use crate::codes::Sense;
use crate::form::{check_form, u16_at};
use scsi::Command;

/// Enable vital product data, in byte 1 of INQUIRY.
const EVPD: u8 = 0x01;

/// Page format, in byte 1 of MODE SELECT: the pages are those of the standard.
const PAGE_FORMAT: u8 = 0x10;

/// Disable block descriptors, in byte 1 of MODE SENSE: there are none to be left out.
const DISABLE_BLOCK_DESCRIPTORS: u8 = 0x08;

/// The vital product data pages: supported pages, unit serial number, device identification and
/// block limits.
const VITAL_PAGES: [u8; 4] = [0x00, 0x80, 0x83, 0xb0];

/// The mode pages: caching, and all pages.
const MODE_PAGES: [u8; 2] = [0x08, 0x3f];

/// The page control that asks for saved values.
const SAVED_VALUES: u8 = 3;

/// The lengths of a parameter list of MODE SELECT: nothing, a mode parameter header, and one with
/// the caching page.
const LIST_LENGTHS: [u8; 3] = [0, 4, 24];

pub(crate) fn test_unit_ready(block: &[u8]) -> Result<Command, Sense>
    ensures { result ≡ judged_by block.now test_unit_ready }
{
    check_form(block, 6, &[0])?;
    Ok(Command::TestUnitReady)
}

pub(crate) fn request_sense(block: &[u8]) -> Result<Command, Sense>
    ensures { result ≡ judged_by block.now (request_sense block.now) }
{
    check_form(block, 6, &[0])?;
    Ok(Command::RequestSense {
        allocation: block[4],
    })
}

pub(crate) fn inquiry(block: &[u8]) -> Result<Command, Sense>
    ensures { result ≡ judged_by block.now (inquiry block.now) }
{
    check_form(block, 6, &[0, EVPD])?;
    let page = inquiry_page(block)?;
    Ok(Command::Inquiry {
        page,
        allocation: u16_at(block, 3),
    })
}

// The code of the vital product data page that is asked for, or none for standard data.
fn inquiry_page(block: &[u8]) -> Result<Option<u8>, Sense>
    requires { 6 ≤ length block.now }
    ensures { result ≡ judged (inquiry_tests block.now) (inquiry_page block.now) }
{
    let page = block[2];
    if block[1] & EVPD != 0 {
        if VITAL_PAGES.contains(&page) {
            return Ok(Some(page));
        }
    } else if page == 0 {
        return Ok(None);
    }
    Err(Sense::INVALID_FIELD_IN_CDB)
}

pub(crate) fn mode_select(block: &[u8]) -> Result<Command, Sense>
    ensures { result ≡ judged_by block.now (mode_select block.now) }
{
    check_form(block, 6, &[PAGE_FORMAT])?;
    let length = block[4];
    if !LIST_LENGTHS.contains(&length) {
        return Err(Sense::PARAMETER_LIST_LENGTH_ERROR);
    }
    Ok(Command::ModeSelect { length })
}

#[tactic(auto, using(crate::proofs::Judged::judging, std::proofs::lemmas::Grind::common_steps))]
pub(crate) fn mode_sense(block: &[u8]) -> Result<Command, Sense>
    ensures { result ≡ judged_by block.now (mode_sense block.now) }
{
    check_form(block, 6, &[0, DISABLE_BLOCK_DESCRIPTORS])?;
    let (control, page) = (block[2] >> 6, block[2] & 0x3f);
    let subpage = block[3];
    check_mode_page(control, page, subpage)?;
    Ok(Command::ModeSense {
        control,
        page,
        subpage,
        allocation: block[4],
    })
}

// Refuses all pages but those there are, and saved values.
fn check_mode_page(control: u8, page: u8, subpage: u8) -> Result<(), Sense>
    requires { control < 4 }
    ensures { result ≡ judged (mode_sense_tests control page subpage) tt }
{
    if !MODE_PAGES.contains(&page) || subpage != 0 {
        return Err(Sense::INVALID_FIELD_IN_CDB);
    }
    if control == SAVED_VALUES {
        return Err(Sense::SAVING_PARAMETERS_NOT_SUPPORTED);
    }
    Ok(())
}
