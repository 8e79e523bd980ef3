//! Calls of a machine that are made while the device is at none of them.
ghost use Rattle.std.specs.Prelude.{◌≡◌, ◌+◌, length};
ghost use Rattle.image_calls.specs.Stepping.{Answers, Puts};

use crate::carried::{Carried, is_sector};
use crate::run::Run;
use medium::{Call, Machine};
use window::WindowMedium;

impl<T: Machine<WindowMedium>> Carried<T> {
    /// Makes the next call, where it reads a sector that is held. Else nothing changes.
    pub(crate) fn answer(&mut self, run: &Run) -> bool
        ensures { Answers T.fits T.holds T.may T.reads T.ends T.cost T.exact T.due T.after T.gone
            run.now self.old result self.new }
    {
        let mut sector = self.sector;
        let Some(Call::Read(place)) = self.machine.next(&mut sector) else {
            return false;
        };
        if !run.load(place, &mut sector) {
            return false;
        }
        self.machine.made(&sector);
        self.sector = sector;
        true
    }

    /// Makes the next call, where it writes the sector that lies so many behind the first, from
    /// which on no sector stays held. Else nothing changes.
    pub(crate) fn put(&mut self, first: u64, count: u64, run: &mut Run) -> bool
        ensures { Puts T.fits T.holds T.may T.reads T.ends T.cost T.exact T.due T.after T.gone
            (first + count) run.old self.old result run.new self.new }
    {
        let mut sector = self.sector;
        let Some(Call::Write(place)) = self.machine.next(&mut sector) else {
            return false;
        };
        if place < first || place - first != count {
            return false;
        }
        is_sector(&sector);
        self.machine.made(&sector);
        self.sector = sector;
        run.let_go(place);
        true
    }
}
