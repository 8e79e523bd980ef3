//! The caching mode page, and the mode data that has it.
ghost use Rattle.std.specs.Prelude.{◌≡◌, ℕ, Bool, ◌++◌, IfOk, OnOk, OnErr};
ghost use Rattle.scsi.specs.{Judging.judged, Commands.mode_sense_tests, ModePage.mode_header};
ghost use Rattle.scsi.specs.ModePage.{caching_page, mode_data, mode_select_answer, selected_bit};
ghost use Rattle.scsi_commands.specs.Mode.{CountsItself, Selects};

use crate::codes::Sense;

/// The current values of a page, as a page control (SPC-4, MODE SENSE(6) command).
const CURRENT: u8 = 0;

/// A mask of what can be changed in a page, as a page control.
const CHANGEABLE: u8 = 1;

/// The default values of a page, as a page control.
const DEFAULT: u8 = 2;

/// The code of the caching mode page (SBC-3, caching mode page).
pub const CACHING: u8 = 0x08;

/// The page code that asks for all pages.
const ALL_PAGES: u8 = 0x3f;

/// The device-specific parameter of a unit that serves DPO and FUA.
const DPO_AND_FUA: u8 = 0x10;

// The caching mode page, with the write cache enabled or not (SBC-3, caching mode page).
#[tactic(auto, unfolding(scsi::specs::ModePage::caching_page))]
fn caching_page(wce: bool) -> [u8; 20]
    ensures { result ≡ caching_page wce }
{
    let mut page = [0; 20];
    page[0] = CACHING;
    page[1] = 0x12;
    page[2] = if wce { 0x04 } else { 0x00 };
    page
}

// The caching mode page behind a mode parameter header that tells that FUA is served.
#[tactic(auto, unfolding(scsi::specs::ModePage::caching_page))]
fn mode_parameters(wce: bool) -> [u8; 24]
    ensures bytes { result ≡ mode_header 0x17 0x10 ++ caching_page wce }
    ensures counted { CountsItself result 24 }
{
    let mut parameters = [0; 24];
    parameters[0] = 0x17;
    parameters[2] = DPO_AND_FUA;
    parameters[4..].copy_from_slice(&caching_page(wce));
    parameters
}

/// Writes the data of MODE SENSE(6), and answers their number of bytes: the current (`control` 0),
/// changeable (1) or default (2) values of the caching mode page, which is also all that page code
/// 3Fh gives (SPC-4, MODE SENSE(6) command). `wce` says whether the write cache is enabled.
///
/// # Errors
///
/// Another page or subpage is an invalid field in the command; saved values are not supported.
pub fn mode_sense(
    control: u8,
    page: u8,
    subpage: u8,
    wce: bool,
    to: &mut [u8; 24],
) -> Result<usize, Sense>
    ensures answer { result ≡ judged (mode_sense_tests control page subpage) 24 }
    ensures data { OnOk result (to.new ≡ mode_data control wce) }
    ensures counted { IfOk result (CountsItself to.new) }
    ensures refused { OnErr result (to.new ≡ to.old) }
{
    if (page != CACHING && page != ALL_PAGES) || subpage != 0 {
        return Err(Sense::INVALID_FIELD_IN_CDB);
    }
    *to = match control {
        CURRENT => mode_parameters(wce),
        CHANGEABLE | DEFAULT => mode_parameters(true),
        _ => return Err(Sense::SAVING_PARAMETERS_NOT_SUPPORTED),
    };
    Ok(to.len())
}

// The bit WCE that a parameter list of MODE SELECT(6) carries; None where it has no page.
fn selected_bit(list: &[u8]) -> Result<Option<bool>, Sense>
    ensures { result ≡ selected_bit list.now }
{
    match list {
        [] | [0, 0, _, 0] => Ok(None),
        [0, 0, _, 0, page @ ..] if page == caching_page(true).as_slice() => Ok(Some(true)),
        [0, 0, _, 0, page @ ..] if page == caching_page(false).as_slice() => Ok(Some(false)),
        _ => Err(Sense::INVALID_FIELD_IN_PARAMETER_LIST),
    }
}

/// Whether the write cache is enabled after MODE SELECT(6) with this parameter list, where `wce`
/// says whether it was before: a list of no bytes, a mode parameter header, or one with a caching
/// mode page behind it.
///
/// # Errors
///
/// `INVALID_FIELD_IN_PARAMETER_LIST` for every other list.
pub fn mode_select(list: &[u8], wce: bool) -> Result<bool, Sense>
    ensures answer { result ≡ mode_select_answer list.now wce }
    ensures page { (device : ℕ) (enabled : Bool)
        → list.now ≡ mode_header 0x00 device ++ caching_page enabled → result ≡ Ok enabled }
    ensures only { IfOk result (Selects list.now wce) }
{
    let bit = selected_bit(list)?;
    Ok(bit.unwrap_or(wce))
}
