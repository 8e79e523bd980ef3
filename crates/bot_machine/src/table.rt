//! The thirteen cases, and what comes of each.
ghost use Rattle.std.specs.Prelude.{◌≡◌};
ghost use Rattle.spec.specs.Cases.{IsCase, outcome_of, size_of_way};
ghost use Rattle.bot_machine.specs.Cases.{IsPossible, IsWellFormed, IsFit, intention_in};

use spec::{Case, Endpoint, Outcome, Way};
use std::cmp::Ordering;

/// The case of what the host announces and what the device intends (Bulk-Only Transport 1.0, 6.7).
pub fn case_of(host: Way, intention: Way) -> Case
    ensures row { IsCase result host intention }
    ensures only { (case : Case) → IsCase case host intention → case ≡ result }
{
    match (host, intention) {
        (Way::Nothing, Way::Nothing) => Case::C1,
        (Way::Nothing, Way::In(_)) => Case::C2,
        (Way::Nothing, Way::Out(_)) => Case::C3,
        (Way::In(_), Way::Nothing) => Case::C4,
        (Way::In(announced), Way::In(intended)) => match intended.cmp(&announced) {
            Ordering::Less => Case::C5,
            Ordering::Equal => Case::C6,
            Ordering::Greater => Case::C7,
        },
        (Way::In(_), Way::Out(_)) => Case::C8,
        (Way::Out(_), Way::Nothing) => Case::C9,
        (Way::Out(_), Way::In(_)) => Case::C10,
        (Way::Out(announced), Way::Out(intended)) => match intended.cmp(&announced) {
            Ordering::Less => Case::C11,
            Ordering::Equal => Case::C12,
            Ordering::Greater => Case::C13,
        },
    }
}

/// What comes of a case (Bulk-Only Transport 1.0, 6.7). A command that intended to send and failed
/// goes on as case 4.
pub fn outcome(case: Case, host: Way, intention: Way) -> Outcome
    requires { IsPossible case host intention }
    ensures row { result ≡ outcome_of case (size_of_way host) (size_of_way intention) }
    ensures fit { IsWellFormed host → IsWellFormed intention →
        IsFit host (intention_in case intention) result }
{
    let announced = host.size();
    let intended = intention.size();
    let (moved, halt, phase, residue) = match case {
        Case::C1 => (0, None, false, 0),
        Case::C2 | Case::C3 => (0, None, true, 0),
        Case::C4 => (0, Some(Endpoint::In), false, announced),
        Case::C5 => (intended, Some(Endpoint::In), false, announced - intended),
        Case::C6 => (intended, None, false, 0),
        Case::C7 | Case::C8 => (0, Some(Endpoint::In), true, announced),
        Case::C9 => (announced, None, false, announced),
        Case::C10 | Case::C13 => (0, Some(Endpoint::Out), true, announced),
        Case::C11 => (announced, None, false, announced - intended),
        Case::C12 => (announced, None, false, 0),
    };
    Outcome {
        moved,
        halt,
        phase,
        residue,
    }
}
