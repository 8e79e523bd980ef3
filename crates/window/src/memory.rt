//! The sectors that lie in memory: the first ones, and those that were shown last.
ghost use Rattle.std.specs.Prelude.{◌≡◌, ◌⊎◌, ◌/◌, ◌+◌, ◌<◌, ◌≤◌, ℕ, true, length, [], ◌∷◌};
ghost use Rattle.medium.specs.Medium.{Image};
ghost use Rattle.medium.specs.Writes.{sector_of};
ghost use Rattle.window.specs.Device.{put as put_in};
ghost use Rattle.window.specs.Panes.{AreLaid};
ghost use Rattle.window.specs.Window.{lies_in};
ghost use Rattle.window.specs.declared.call.DeviceCall.TheVariants.{Write};

use crate::pane::Pane;
use crate::sectors::{SECTOR, Sectors};

/// Copies a block over a sector, where it lies among the first ones or in the window.
pub(crate) fn keep(near: &mut Sectors, pane: &mut Pane, sector: u64, block: &[u8; 512])
    requires { length near.old.bytes.items / 512 ≤ pane.old.from ⊎ (pane.old.held ≡ 0) }
    ensures near { (image : Image) → ((s : ℕ) → s < length near.old.bytes.items / 512
        → sector_of near.old.bytes.items s ≡ image s)
        → (s : ℕ) → s < length near.old.bytes.items / 512
        → sector_of near.new.bytes.items s ≡ put_in sector block.now image s }
    ensures length { length near.new.bytes.items ≡ length near.old.bytes.items }
    ensures pane { AreLaid (Write (record { sector = sector; block = block.now }) ∷ [])
        pane.old pane.new }
{
    if sector < (near.bytes.len() / SECTOR) as u64 {
        near.store(sector, block);
        return;
    }
    pane.keep(sector, block);
}

/// Copies a sector out that lies among the first ones or in the window.
pub(crate) fn load(near: &Sectors, pane: &Pane, sector: u64, to: &mut [u8; 512])
    requires { (sector < length near.now.bytes.items / 512)
        ⊎ (lies_in pane.now.from pane.now.held sector ≡ true) }
    ensures { (image : Image)
        → ((s : ℕ) → s < length near.now.bytes.items / 512
        → sector_of near.now.bytes.items s ≡ image s)
        → ((i : ℕ) → i < pane.now.held
        → sector_of pane.now.sectors.bytes.items i ≡ image (pane.now.from + i))
        → to.new ≡ image sector }
{
    if sector < (near.bytes.len() / SECTOR) as u64 {
        near.load(sector, to);
    } else {
        pane.sectors.load(sector - pane.from, to);
    }
}
