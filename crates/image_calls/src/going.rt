//! What comes next is made.
ghost use Rattle.image_calls.specs.Formats.{MakesParts};

use crate::part::next_part;
use crate::work::Work;

/// Makes what comes next, where nothing waits. A sector lies on the stack here alone, and not
/// below each call that is handed on.
#[inline(never)]
pub(crate) fn go_on(work: &mut Work)
    ensures { MakesParts work.old work.new }
{
    // The law of the outbox, from the first call on.
    let _waiting = work.medium.waiting();
    while work.medium.waiting() == 0 {
        let Some(plan) = work.left else {
            return;
        };
        let Ok(left) = next_part(&mut work.medium, plan) else {
            return;
        };
        work.left = left;
    }
}
