//! The parts by which an image is made: each by so few calls that they have room in an outbox.
ghost use Rattle.std.specs.Prelude.{◌≡◌, ◌+◌, ◌<◌, ◌≤◌, Some, OnOk, OnErr, IfOk, IfErr};
ghost use Rattle.std.specs.Prelude.{MatchOption};
ghost use Rattle.journal.specs.Formats.{shape_of};
ghost use Rattle.recovery.specs.Calls.{IsFormatCause};
ghost use Rattle.image_calls.specs.Parts.{IsBegun, KeepsOnWay, FailsOnWay, GoesPart};
ghost use Rattle.image_calls.specs.Parts.{LaysTheRest, parts_left};
ghost use Rattle.image_calls.specs.Formats.{most_of_part};
ghost use Rattle.image_calls.specs.declared.plan.Plan.TheVariants as left;

use crate::plan::{Aim, HomePlan, LogPlan, Plan};
use journal::{Head, Super};
use medium::{Medium, MediumFault};
use recovery::{FormatFault, clear, write_through};

/// How many calls one part makes at most: one clears as many sectors.
pub const PART: u64 = 32;

/// Takes the super away, of which no cut leaves anything then.
///
/// # Errors
///
/// `BadSize` before any call, or `Medium`.
pub(crate) fn begin<M: Medium>(m: &mut M, sizes: &Super, aim: Aim) -> Result<Plan, FormatFault>
    ensures ok { let shape = shape_of sizes.now in
        IfOk result (λ plan. IsBegun M.state aim shape plan m.old m.new) }
    ensures err { let shape = shape_of sizes.now in
        IfErr result (λ fault. IsFormatCause shape (M.state m.old) (M.state m.new) fault) }
    ensures goes { GoesPart M.state M.follows 2 m.old m.new }
{
    if m.sectors() < sizes.sectors() {
        return Err(FormatFault::BadSize);
    }
    write_through(m, 0, &[0; 512])?;
    let sizes = *sizes;
    match aim {
        Aim::Format => Ok(Plan::Home(HomePlan {
            sizes,
            at: sizes.home,
        })),
        Aim::Laying => Ok(Plan::Log(LogPlan { sizes, at: 1 })),
    }
}

/// Makes the next part, and tells what is left then.
///
/// # Errors
///
/// `BadSize` where the medium is too short for the plan, which none is for which it was made, or
/// `Medium`.
pub(crate) fn next_part<M: Medium>(m: &mut M, plan: Plan) -> Result<Option<Plan>, FormatFault>
    ensures ok { IfOk result (λ rest. KeepsOnWay M.state plan rest m.old m.new) }
    ensures err { OnErr result (FailsOnWay M.state plan m.old m.new) }
    ensures nearer { IfOk result (λ rest. parts_left rest < parts_left (Some plan)) }
    ensures goes { GoesPart M.state M.follows most_of_part m.old m.new }
{
    match plan {
        Plan::Home(home) => Ok(Some(home_part(m, home)?)),
        Plan::Log(log) => log_part(m, log),
    }
}

// The next part where home is not cleared yet, or was: then the log is to be laid.
fn home_part<M: Medium>(m: &mut M, plan: HomePlan) -> Result<Plan, FormatFault>
    ensures ok { IfOk result (λ rest. KeepsOnWay M.state (left.Home plan) (Some rest) m.old m.new) }
    ensures err { OnErr result (FailsOnWay M.state (left.Home plan) m.old m.new) }
    ensures nearer { IfOk result
        (λ rest. parts_left (Some rest) < parts_left (Some (left.Home plan))) }
    ensures goes { GoesPart M.state M.follows 32 m.old m.new }
{
    let sizes = plan.sizes;
    let Some(to) = end_of_part(plan.at, sizes.sectors()) else {
        return begin(m, &sizes, Aim::Laying);
    };
    if m.sectors() < sizes.sectors() {
        return Err(FormatFault::BadSize);
    }
    clear(m, plan.at, to)?;
    Ok(Plan::Home(HomePlan { sizes, at: to }))
}

// The next part where home stays, or was cleared: none is left behind head and super.
fn log_part<M: Medium>(medium: &mut M, plan: LogPlan) -> Result<Option<Plan>, FormatFault>
    ensures ok { IfOk result
        (λ rest. KeepsOnWay M.state (left.Log plan) rest medium.old medium.new) }
    ensures err { OnErr result (FailsOnWay M.state (left.Log plan) medium.old medium.new) }
    ensures nearer { IfOk result (λ rest. parts_left rest < parts_left (Some (left.Log plan))) }
    ensures goes { GoesPart M.state M.follows 32 medium.old medium.new }
{
    let sizes = plan.sizes;
    if medium.sectors() < sizes.sectors() {
        return Err(FormatFault::BadSize);
    }
    let Some(to) = end_of_part(plan.at, sizes.home) else {
        lay_rest(medium, &sizes)?;
        return Ok(None);
    };
    clear(medium, plan.at, to)?;
    Ok(Some(Plan::Log(LogPlan { sizes, at: to })))
}

// The head and a flush, the super and a flush.
fn lay_rest<M: Medium>(m: &mut M, sizes: &Super) -> Result<(), MediumFault>
    requires { sizes.now.home + sizes.now.blocks ≤ (M.state m.old).size }
    ensures ok { OnOk result (LaysTheRest M.state (shape_of sizes.now) m.old m.new) }
    ensures err { OnErr result ((M.state m.old).failures < (M.state m.new).failures) }
    ensures goes { GoesPart M.state M.follows 4 m.old m.new }
{
    write_through(m, 1, &Head::new(1).encode())?;
    write_through(m, 0, &sizes.encode())?;
    Ok(())
}

// Behind which sector the next part ends, where not all up to the end is cleared yet.
fn end_of_part(at: u64, end: u64) -> Option<u64>
    ensures { MatchOption result (end ≤ at) (λ to. (at < to) × (to ≤ end) × (to ≤ at + 32)) }
{
    if at >= end {
        None
    } else if end - at > PART {
        Some(at + PART)
    } else {
        Some(end)
    }
}
