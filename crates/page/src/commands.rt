//! What a store does of a host's commands, and of the work in the background.
ghost use Rattle.logical_blocks.specs.Book.{Book};
ghost use Rattle.page.specs.Scenes.{Serves};

use crate::extent::Extent;
use crate::fault::Fault;
use crate::life::Life;
use crate::step::Command;
use crate::watched::Watched;
use blocks::Store;
use std::alloc::Global;

/// Carries a command out.
///
/// # Errors
///
/// `Refused` where the blocks are none of the store, or the command is none; `NoMemory`; `Failed`
/// where the store failed.
pub(crate) fn carry_out(
    alloc: Global,
    store: &mut Store<Watched>,
    life: &mut Life,
    command: &Command,
) -> Result<(), Fault>
    ensures { (book : Book)
        → Serves command.now result life.old store.old book life.new store.new }
{
    match command {
        Command::Write(extent) => write(alloc, store, life, extent),
        Command::Force(extent) => force(alloc, store, life, extent),
        Command::Sync => sync(store, life),
        Command::Read(extent) => read(alloc, store, life, extent),
        Command::Tick => tick(store, life),
        Command::Unknown => Err(Fault::Refused),
    }
}

fn tick(store: &mut Store<Watched>, life: &Life) -> Result<(), Fault>
    ensures { (book : Book)
        → Serves Command.Tick result life.now store.old book life.now store.new }
{
    store.tick();
    Ok(())
}

fn force(
    alloc: Global,
    store: &mut Store<Watched>,
    life: &mut Life,
    extent: &Extent,
) -> Result<(), Fault>
    ensures { (book : Book)
        → Serves (Command.Force extent.now) result life.old store.old book life.new store.new }
{
    match write(alloc, store, life, extent) {
        Ok(()) => sync(store, life),
        Err(fault) => Err(fault),
    }
}

fn write(
    alloc: Global,
    store: &mut Store<Watched>,
    life: &mut Life,
    extent: &Extent,
) -> Result<(), Fault>
    ensures { (book : Book)
        → Serves (Command.Write extent.now) result life.old store.old book life.new store.new }
{
    if !extent.lies_within(store.blocks()) {
        return Err(Fault::Refused);
    }
    let Ok(bytes) = Vec::from_elem(alloc, extent.fill, 512 * extent.count) else {
        return Err(Fault::NoMemory);
    };
    let _ = store.limit();
    match store.write(extent.first, &bytes) {
        Ok(()) => {
            life.accepted = life.accepted.saturating_add(1);
            Ok(())
        }
        Err(_) => Err(Fault::Failed),
    }
}

fn sync(store: &mut Store<Watched>, life: &mut Life) -> Result<(), Fault>
    ensures { (book : Book)
        → Serves Command.Sync result life.old store.old book life.new store.new }
{
    match store.sync() {
        Ok(()) => {
            life.promised = life.accepted;
            Ok(())
        }
        Err(_) => Err(Fault::Failed),
    }
}

fn read(
    alloc: Global,
    store: &mut Store<Watched>,
    life: &Life,
    extent: &Extent,
) -> Result<(), Fault>
    ensures { (book : Book)
        → Serves (Command.Read extent.now) result life.now store.old book life.now store.new }
{
    if !extent.lies_within(store.blocks()) {
        return Err(Fault::Refused);
    }
    let Ok(to) = Vec::from_elem(alloc, 0, 512 * extent.count) else {
        return Err(Fault::NoMemory);
    };
    let mut to = to;
    let _ = store.limit();
    match store.read(extent.first, &mut to) {
        Ok(()) => Ok(()),
        Err(_) => Err(Fault::Failed),
    }
}
