//! The device refused a call that was handed out.
ghost use Rattle.store_calls.specs.Refused.{IsRefused, IsDrained};

use crate::run::let_go;
use blocks::Store;
use window::WindowMedium;

/// The device refused the call that was handed out last.
pub(crate) fn refuse(store: &mut Store<WindowMedium>)
    ensures { IsRefused store.old store.new }
{
    drain(store);
    store.stop();
}

// All that waits leaves the outbox.
fn drain(store: &mut Store<WindowMedium>)
    ensures { IsDrained store.old store.new }
{
    let waiting = store.medium().waiting();
    let_go(store, waiting);
}
