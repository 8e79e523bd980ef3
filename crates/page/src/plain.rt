//! A disk without a log, which writes each block to its sector at once.
use crate::extent::Extent;
use crate::fault::Fault;
use crate::life::Life;
use crate::step::{Command, Step};
use crate::watched::Watched;
use medium::{Kept, Medium, MediumFault, Switch};

/// Its medium, whether it runs, and its life.
#[derive(Drop)]
pub(crate) struct Plain {
    pub(crate) medium: Watched,
    pub(crate) runs: bool,
    pub(crate) life: Life,
}

impl Plain {
    /// Whether a disk runs, the power is off, or it is on again and no disk runs: 0, 1, 2.
    pub(crate) fn code(&self) -> u64 {
        if self.runs {
            0
        } else if self.medium.is_off() {
            1
        } else {
            2
        }
    }

    /// Plays a step.
    pub(crate) fn play(&mut self, step: &Step) -> Result<(), Fault> {
        match step {
            Step::Fuse(writes) => {
                self.medium.fuse(*writes);
                Ok(())
            }
            Step::Cut(mask) => {
                self.medium.cut(&Kept::Mask(*mask));
                self.runs = false;
                Ok(())
            }
            Step::Start => self.start(),
            Step::Command(command) => self.command(command),
        }
    }

    fn start(&mut self) -> Result<(), Fault> {
        if self.runs || self.medium.is_off() {
            return Err(Fault::Idle);
        }
        self.runs = true;
        self.life = self.life.next();
        Ok(())
    }

    fn command(&mut self, command: &Command) -> Result<(), Fault> {
        if !self.runs {
            return Err(Fault::Idle);
        }
        let done = self.carry_out(command);
        if self.medium.is_off() {
            self.runs = false;
            return Err(Fault::Lost);
        }
        done
    }

    fn carry_out(&mut self, command: &Command) -> Result<(), Fault> {
        match command {
            Command::Write(extent) => self.write(extent),
            Command::Force(extent) => {
                self.write(extent)?;
                self.sync()
            }
            Command::Sync => self.sync(),
            Command::Read(extent) => {
                if extent.lies_within(self.medium.sectors()) {
                    Ok(())
                } else {
                    Err(Fault::Refused)
                }
            }
            Command::Tick => Ok(()),
            Command::Unknown => Err(Fault::Refused),
        }
    }

    fn write(&mut self, extent: &Extent) -> Result<(), Fault> {
        if !extent.lies_within(self.medium.sectors()) {
            return Err(Fault::Refused);
        }
        if fill(&mut self.medium, extent).is_err() {
            return Err(Fault::Failed);
        }
        self.life.accepted = self.life.accepted.saturating_add(1);
        Ok(())
    }

    fn sync(&mut self) -> Result<(), Fault> {
        if self.medium.flush().is_err() {
            return Err(Fault::Failed);
        }
        self.life.promised = self.life.accepted;
        Ok(())
    }
}

// Writes the blocks of an extent, one after the other.
fn fill(medium: &mut Watched, extent: &Extent) -> Result<(), MediumFault> {
    let block = [extent.fill; 512];
    for i in 0..extent.count as u64 {
        let sector = extent.first.saturating_add(i);
        if sector >= medium.sectors() {
            return Err(MediumFault::Write);
        }
        medium.write(sector, &block)?;
    }
    Ok(())
}
