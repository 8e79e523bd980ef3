//! Calls leave the outbox together.
ghost use Rattle.std.specs.Prelude.{◌≡◌};
ghost use Rattle.blocks.specs.Passing.{IsUntouched};
ghost use Rattle.window.specs.Window.{state_of};
ghost use Rattle.store_calls.specs.Outbox.{without};

use blocks::Store;
use window::WindowMedium;

// Lets go of so many calls that wait first.
pub(crate) fn let_go(store: &mut Store<WindowMedium>, count: usize)
    ensures gone { store.new.medium ≡ without count store.old.medium }
    ensures untouched { IsUntouched state_of store.old store.new }
{
    for _gone in 0..count {
        store.pop();
    }
}
