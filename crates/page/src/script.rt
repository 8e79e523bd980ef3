//! A script: a head, and steps.
ghost use Rattle.std.specs.Prelude.{◌≡◌, ◌≤◌, ◌+◌, ◌-◌, ◌*◌, ◌/◌, ◌↔◌, [], length, slice_index};
ghost use Rattle.std.specs.Prelude.{IfSome, is_some, false};
ghost use Rattle.logical_blocks.specs.Book.{Book};
ghost use Rattle.page.specs.Scenes.{Shows};
ghost use Rattle.page.specs.Standing.{standing};
ghost use Rattle.page.specs.Scripts.{code_of, step_at, HasReached, GoesOn, IsHead, IsScript};

use crate::fault::Fault;
use crate::scene::{Played, Scene};
use crate::step::{STEP, Step};
use journal::{LogFormat, Super};
use std::alloc::Global;

/// What the head of a script asks for.
#[derive(Clone, Copy)]
pub(crate) struct Head {
    pub(crate) sizes: Super,
    pub(crate) goes_ahead: bool,
}

/// The head of a script: a format, 1 to 4 slots, a policy, and 1 to 32 blocks. `None` where it is
/// none, or where the script has no whole steps.
pub(crate) fn head_of(script: &[u8]) -> Option<Head>
    ensures some { IfSome result (IsHead script.now) }
    ensures none { is_some result ≡ false ↔ (IsScript script.now → ⊥) }
{
    if script.len() < STEP || script.len() % STEP != 0 {
        return None;
    }
    let format = match script[0] {
        1 => LogFormat::One,
        2 => LogFormat::Two,
        _ => return None,
    };
    let (slots, blocks) = (u64::from(script[1]), u64::from(script[3]));
    if slots < 1 || slots > 4 || script[2] > 1 || blocks < 1 || blocks > 32 {
        return None;
    }
    Some(Head {
        sizes: Super::new(format, blocks, slots),
        goes_ahead: script[2] == 1,
    })
}

/// Plays the steps of a script behind its head, and appends how they went. `None` for want of
/// memory.
pub(crate) fn play_all(
    alloc: Global,
    first: Scene,
    script: &[u8],
    answers: &mut Vec<u8>,
) -> Option<Scene>
    requires { 16 ≤ length script.now }
    ensures { (book : Book) → Shows first book → answers.old.items ≡ []
        → IfSome result (HasReached script.now (standing first book)
        (length script.now / 16 - 1) answers.new.items) }
{
    let mut scene = first;
    for i in 0..script.len() / STEP - 1 {
        scene = play_one(alloc, scene, script, i + 1, answers)?;
    }
    Some(scene)
}

// Plays one step of a script, and appends how it went.
fn play_one(
    alloc: Global,
    scene: Scene,
    script: &[u8],
    i: usize,
    answers: &mut Vec<u8>,
) -> Option<Scene>
    requires { 16 * i + 16 ≤ length script.now }
    ensures { (book : Book) → Shows scene book
        → IfSome result (GoesOn (step_at script.now i) (standing scene book)
        answers.old.items answers.new.items) }
{
    let step = Step::decode(&script[STEP * i..STEP * i + STEP]);
    let Played {
        scene: next,
        result: went,
    } = scene.play(alloc, &step);
    match answers.push(code_of(&went)) {
        Ok(()) => Some(next),
        Err(_) => None,
    }
}

/// How a step went, as a byte.
pub(crate) fn code_of(went: &Result<(), Fault>) -> u8
    ensures { result ≡ code_of went.now }
{
    match went {
        Ok(()) => 0,
        Err(fault) => match fault {
            Fault::Lost => 1,
            Fault::Idle => 2,
            Fault::Refused => 3,
            Fault::Failed => 4,
            Fault::NoMemory => 5,
        },
    }
}
