//! A file of the system, and what it was asked.
ghost use Rattle.std.specs.Prelude.{◌≡◌, IfOk};
ghost use Rattle.medium.specs.FileStory.{IsJustOpened, options_of};

use crate::file_call::{Access, Answered, FileCall};
use crate::file_story::Story;
use crate::sector_file::SectorFile;
use crate::told_file::ToldFile;
use std::fs::{Files, OpenOptions};
use std::io;
use std::marker::Model;

/// An open file. Each method makes one call of it, and notes the call with its answer, but for a
/// look, which changes nothing.
///
/// That the file does what it is asked until it refuses is a premise: the standard library says
/// nothing of what a file holds.
#[derive(Drop)]
pub struct OpenedFile<F> {
    file: F,
    story: Story,
}

impl<F> Model for OpenedFile<F> {
    ghost use Rattle.medium.specs.FileStory.{Told};

    ghost Value = { Told };

    ghost use Rattle.medium.specs.OpenedView.{view_of};

    ghost view = { view_of };
}

impl<F: SectorFile + Drop> OpenedFile<F> {
    /// The file at this path, opened for this.
    ///
    /// # Errors
    ///
    /// The system refused it.
    pub fn open<R: Files<File = F>>(rt: &R, path: &str, access: Access) -> io::Result<OpenedFile<F>>
        ensures { IfOk result (IsJustOpened path.now access) }
    {
        let file = options_for(access).open(rt, path)?;
        Ok(OpenedFile::over(file, path, access))
    }
}

impl<F> OpenedFile<F> {
    // A file that was just opened so.
    fn over(file: F, path: &str, access: Access) -> OpenedFile<F>
        ensures { IsJustOpened path.now access result }
    {
        let mut story = Story::new();
        story.note(&Answered::by(FileCall::Open(access), true), path.as_bytes());
        OpenedFile { file, story }
    }
}

// How the system is asked to open a file.
fn options_for(access: Access) -> OpenOptions
    ensures { result ≡ options_of access }
{
    let mut how = OpenOptions::new();
    how.read(true);
    match access {
        Access::Look => {}
        Access::Change => {
            how.write(true);
        }
        Access::Make => {
            how.write(true).create_new(true);
        }
        Access::Replace => {
            how.write(true).create(true);
        }
    }
    how
}

impl<F: SectorFile> OpenedFile<F> {
    /// Whether it is a plain file, and no device or pipe.
    ///
    /// # Errors
    ///
    /// The system did not tell.
    pub fn is_plain(&self) -> io::Result<bool> {
        Ok(self.file.metadata()?.is_file())
    }
}

impl<F: SectorFile> ToldFile for OpenedFile<F> {
    ghost told = { λ file. file };

    fn lock(&mut self) -> io::Result<()> {
        let answer = self.file.try_lock();
        self.story
            .note(&Answered::by(FileCall::Lock, answer.is_ok()), &[]);
        answer
    }

    fn measure(&mut self) -> io::Result<u64> {
        let answer = match self.file.metadata() {
            Ok(metadata) => Ok(metadata.len()),
            Err(error) => Err(error),
        };
        let told = match answer {
            Ok(length) => Answered {
                call: FileCall::Measure,
                good: true,
                length,
            },
            Err(_) => Answered::by(FileCall::Measure, false),
        };
        self.story.note(&told, &[]);
        answer
    }

    fn resize(&mut self, length: u64) -> io::Result<()> {
        let answer = self.file.set_len(length);
        self.story.note(&Answered::by(FileCall::Resize(length), answer.is_ok()), &[]);
        answer
    }

    fn read_at(&mut self, to: &mut [u8], at: u64) -> io::Result<usize> {
        let answer = self.file.read_at(to, at);
        match answer {
            Ok(count) => self
                .story
                .note(&Answered::by(FileCall::Read(at), true), &to[..count]),
            Err(_) => self
                .story
                .note(&Answered::by(FileCall::Read(at), false), &[]),
        }
        answer
    }

    fn look_at(&self, to: &mut [u8], at: u64) -> io::Result<usize> {
        self.file.read_at(to, at)
    }

    fn write_at(&mut self, from: &[u8], at: u64) -> io::Result<usize> {
        let answer = self.file.write_at(from, at);
        match answer {
            Ok(count) => self
                .story
                .note(&Answered::by(FileCall::Write(at), true), &from[..count]),
            Err(_) => self
                .story
                .note(&Answered::by(FileCall::Write(at), false), &[]),
        }
        answer
    }

    fn sync(&mut self) -> io::Result<()> {
        let answer = self.file.sync_all();
        self.story
            .note(&Answered::by(FileCall::Sync, answer.is_ok()), &[]);
        answer
    }
}
