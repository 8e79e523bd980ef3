//! Why a command of a program was refused: its exit status and its text.
ghost use Rattle.std.specs.Prelude.{◌≡◌};
ghost use Rattle.usbdisk.specs.console.Status.{refusal_of_argument, refusal_of_file};
ghost use Rattle.usbdisk.specs.console.Status.{refusal_of_open};

use crate::console::fault::{
    file_status, file_text, image_text, plain_text, start_status, start_text,
};
use crate::console::words::ArgumentFault;
use device_file::{FileFault, OpenFault};
use medium::FileError;
use recovery::StartFault;
use std::io::Write;

/// Why a command of one of the programs was refused.
#[derive(Clone, Copy)]
pub enum Refusal {
    /// The words are none of a command.
    Words,
    /// The number of the first line that is none of a script.
    Line(u64),
    /// A script has more bytes than the limit.
    TooLong,
    /// An image that is read whole is empty, too long, or not of whole sectors.
    ImageLength,
    /// An image that is made whole would have a size out of its limits.
    ImageSize,
    /// A disk does not start on an image that was read whole.
    ImageFault(StartFault),
    /// A file that is read whole was not, or an answer not written.
    FileFailed,
    /// A new image would have a size out of its limits.
    Sizes,
    /// The blocks of a new image would begin where they cannot.
    Align,
    /// The image in a file has a fault.
    Image(StartFault),
    /// The file of an image refused a call.
    File(FileFault),
    /// The plain file that an import reads refused a call.
    Plain(FileFault),
    /// The new file of an export or an import, the second that its line names, refused a call.
    Target(FileFault),
    /// The answer was not written, or the null device not opened.
    Streams,
    /// The null device was not opened.
    NullDevice,
    /// The input was not read.
    Input,
    /// An answer to a line of the input was not written.
    Output,
    /// Memory ran out.
    NoMemory,
}

impl Refusal {
    ghost use Rattle.usbdisk.specs.console.Status.{status_of};

    /// The exit status.
    pub fn status(self) -> u8
        ensures { result ≡ status_of self }
    {
        match self {
            Refusal::Line(_) | Refusal::TooLong => 1,
            Refusal::Words => 2,
            Refusal::ImageLength | Refusal::ImageSize | Refusal::Sizes | Refusal::Align => 3,
            Refusal::ImageFault(fault) | Refusal::Image(fault) => start_status(fault),
            Refusal::File(fault) | Refusal::Target(fault) => file_status(fault),
            Refusal::Plain(_) | Refusal::FileFailed | Refusal::Streams => 4,
            Refusal::NullDevice | Refusal::Input | Refusal::Output => 4,
            Refusal::NoMemory => 5,
        }
    }

    // What it is called on standard error, but for a number.
    fn text(self) -> &'static str {
        match self {
            Refusal::Words => "bad command line",
            Refusal::Line(_) => "not a script line",
            Refusal::TooLong => "script too long",
            Refusal::ImageLength => "image refused: length",
            Refusal::ImageSize => "image refused: size",
            Refusal::ImageFault(fault) => image_text(fault),
            Refusal::FileFailed => "file failed",
            Refusal::Sizes => "the sizes are out of their limits",
            Refusal::Align =>
                "no blocks begin at a multiple of --align behind a log of so many slots",
            Refusal::Image(fault) => start_text(fault),
            Refusal::File(fault) | Refusal::Target(fault) => file_text(fault),
            Refusal::Plain(fault) => plain_text(fault),
            Refusal::Streams => "the answer was not written",
            Refusal::NullDevice => "the null device was not opened",
            Refusal::Input => "the input was not read",
            Refusal::Output => "an answer was not written",
            Refusal::NoMemory => "no memory",
        }
    }

    /// Writes its text, where that can be written, behind the name of the file that it is about,
    /// where there is one.
    pub fn report<W: Write>(self, name: Option<&str>, err: &mut W) {
        let text = self.text();
        let _ = match (self, name) {
            (Refusal::Line(number), _) => writeln!(err, "line {number}: {text}"),
            (Refusal::ImageFault(fault), _) if start_status(fault) == 3 => writeln!(
                err,
                "{text}: {}",
                fault as u8
            ),
            (Refusal::Words, _) | (_, None) => writeln!(err, "{text}"),
            (_, Some(name)) => writeln!(err, "{name}: {text}"),
        };
    }
}

impl From<ArgumentFault> for Refusal {
    ghost from_gives = { λ fault e. e ≡ refusal_of_argument fault };

    fn from(fault: ArgumentFault) -> Refusal {
        match fault {
            ArgumentFault::NoText => Refusal::Words,
            ArgumentFault::NoMemory => Refusal::NoMemory,
        }
    }
}

impl From<FileError> for Refusal {
    ghost from_gives = { λ error e. e ≡ refusal_of_file error };

    fn from(error: FileError) -> Refusal {
        match error {
            FileError::File => Refusal::FileFailed,
            FileError::BadLength | FileError::TooLong => Refusal::ImageLength,
            FileError::NoMemory => Refusal::NoMemory,
        }
    }
}

impl From<OpenFault> for Refusal {
    ghost from_gives = { λ fault e. e ≡ refusal_of_open fault };

    fn from(fault: OpenFault) -> Refusal {
        match fault {
            OpenFault::File(why) => Refusal::File(why),
            OpenFault::NoMemory => Refusal::NoMemory,
        }
    }
}
