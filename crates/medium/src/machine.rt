//! A machine that tells its next call of a medium, and the one loop that makes its calls.
ghost use Rattle.std.specs.Prelude.{◌≡◌, ℕ, List, MatchOption, OnOk};
ghost use Rattle.medium.specs.Medium.{Image};
ghost use Rattle.medium.specs.Moments.{EachCut};
ghost use Rattle.medium.specs.Tally.{Tally, none};
ghost use Rattle.medium.specs.Machine.{TellsCall, GoesOn, HasRoom, Driven, Tallied};

use crate::{Call, Medium, MediumFault, perform};

/// It tells its next call, and is told how that ended: a read with the bytes that it gave.
pub trait Machine<M: Medium> {
    /// What stays for the whole run, as the medium at its beginning.
    ghost View: { Type 0 };

    /// It may go on, on a medium of this many sectors.
    ghost fits: { Self → ℕ → Type 0 };

    /// What it and the medium hold between two calls, where the lent sector has these bytes.
    ghost holds: { Self → List ℕ → M → View → Type 0 };

    /// What a cut may leave, at each moment.
    ghost may: { View → Image → Type 0 };

    /// No read names a sector from this one on.
    ghost reads: { Self → ℕ };

    /// No call names a sector from this one on.
    ghost ends: { Self → ℕ };

    /// How many calls of each kind are left, or at most are.
    ghost cost: { Self → Tally };

    /// So many are left, and not fewer: no bytes that it reads spare it a call.
    ghost exact: { Type 0 };

    /// A call is left.
    ghost due: { Self → Type 0 };

    /// The second is the first once its next call is made, which left these bytes in the sector.
    ghost after: { Self → List ℕ → Self → Type 0 };

    /// The second is the first once that call was refused.
    ghost gone: { Self → Self → Type 0 };

    /// The next call, and in the sector what it writes; none at the end.
    fn next(&self, sector: &mut [u8; 512]) -> Option<Call>
        ensures { MatchOption result ((cost self.now ≡ none) × (sector.new ≡ sector.old))
            (λ call. TellsCall M.state fits holds reads ends cost exact due after gone self.now
            sector.old call sector.new) };

    /// The call is made, with this sector lent.
    fn made(&mut self, sector: &[u8; 512])
        requires { due self.old }
        ensures { after self.old sector.now self.new };

    /// The call was refused.
    fn refused(&mut self)
        requires { due self.old }
        ensures { gone self.old self.new };

    ghost leaves: { (s : Self) (had : List ℕ) (m : M) (view : View) → holds s had m view
        → EachCut (may view) (M.state m) };

    ghost room: { HasRoom fits ends };

    ghost goes_on: { (s t : Self) (got : List ℕ) → due s → after s got t
        → GoesOn fits reads ends s t };
}

/// Makes the calls of a machine until it has none left, or one is refused.
///
/// # Errors
///
/// As the medium.
pub fn drive<M: Medium, T: Machine<M>>(
    m: &mut M,
    machine: &mut T,
    sector: &mut [u8; 512],
) -> Result<(), MediumFault>
    requires { T.fits machine.old (M.state m.old).size }
    ensures driven { Driven M.state T.fits T.holds T.may T.reads T.ends T.cost T.exact
        machine.old sector.old m.old result machine.new sector.new m.new }
    ensures done { OnOk result ((T.cost machine.new ≡ none)
        × Tallied T.exact (T.cost machine.old) none result (M.state m.old) (M.state m.new)) }
    ensures follows { M.follows m.old m.new }
{
    while let Some(call) = machine.next(sector) {
        if let Err(fault) = perform(m, call, sector) {
            machine.refused();
            return Err(fault);
        }
        machine.made(sector);
    }
    Ok(())
}
