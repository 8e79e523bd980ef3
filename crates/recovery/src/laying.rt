//! The laying of a log before blocks that stay.
ghost use Rattle.std.specs.Prelude.{◌≡◌, ◌+◌, ◌*◌, OnOk, IfErr};
ghost use Rattle.journal.specs.Formats.{shape_of};
ghost use Rattle.recovery.specs.Calls.{IsLaid, LayingLeaves, IsFormatCause, CallsWithoutReads};

use crate::FormatFault;
use crate::formatting::write_image;
use journal::Super;
use medium::Medium;

/// Makes an image of these sizes around blocks that are at home already: it writes super, head and
/// log alone, and the new image stands for what home holds. `sizes_of` gives the sizes, and
/// `sizes_with` those with a given home.
///
/// No sector from the first home sector on is written, and none is read. Until its first good flush
/// a cut may leave what it could leave before, from then on no super, and in the end the new image.
///
/// # Errors
///
/// `BadSize` where the medium is too short for the sizes, before any call; `Medium` where the
/// medium refused a call: there may be no image then.
pub fn lay_log<M: Medium>(m: &mut M, sizes: &Super) -> Result<(), FormatFault>
    ensures ok { OnOk result (IsLaid (shape_of sizes.now) (M.state m.old) (M.state m.new)) }
    // Sizes that the medium is too short for are refused before any call.
    ensures err { IfErr result (λ fault.
        IsFormatCause (shape_of sizes.now) (M.state m.old) (M.state m.new) fault
        × (fault ≡ FormatFault.BadSize → m.new ≡ m.old)) }
    ensures leaves { LayingLeaves (shape_of sizes.now) (M.state m.old) (M.state m.new) }
    ensures calls { CallsWithoutReads (sizes.now.home + 5) (M.state m.old) (M.state m.new) result }
    ensures follows { M.follows m.old m.new }
{
    if m.sectors() < sizes.sectors() {
        return Err(FormatFault::BadSize);
    }
    write_image(m, sizes, sizes.home)?;
    Ok(())
}
