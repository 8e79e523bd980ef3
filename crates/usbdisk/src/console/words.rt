//! The words of a program.
ghost use Rattle.std.specs.Prelude.{◌≡◌, ◌↔◌, IfOk, IsTrue, map, drop, string_bytes};
ghost use Rattle.usbdisk.specs.console.Words.{IsFileWord};

use std::alloc::{AllocError, Global};
use std::env;
use std::env::Env;
use std::io::ErrorKind;

/// Why a program's arguments were not had.
#[derive(Clone, Copy, Debug, PartialEq, Eq)]
pub enum ArgumentFault {
    /// One is no text, so it is no word of a command.
    NoText,
    /// Memory ran out.
    NoMemory,
}

/// The program's arguments, its name first.
///
/// # Errors
///
/// `NoText` where one is no text, and `NoMemory`.
pub fn arguments<R: Env + AllocGlobal>(rt: &R) -> Result<Vec<String>, ArgumentFault> {
    match env::args(rt) {
        Ok(args) => args
            .collect(rt.alloc())
            .map_err(|_| ArgumentFault::NoMemory),
        Err(error) => Err(fault_of(error.kind())),
    }
}

// Why the system gave no arguments, by the kind of its error.
fn fault_of(kind: ErrorKind) -> ArgumentFault
    ensures { (result ≡ ArgumentFault.NoMemory) ↔ (kind ≡ ErrorKind.OutOfMemory) }
{
    match kind {
        ErrorKind::OutOfMemory => ArgumentFault::NoMemory,
        _ => ArgumentFault::NoText,
    }
}

/// The words after the program's name.
///
/// # Errors
///
/// Memory ran out.
pub fn words_of<'a>(alloc: Global, args: &'a [String]) -> Result<Vec<&'a str>, AllocError>
    ensures { IfOk result (λ words. map (λ word. word.now) words.items
        ≡ drop 1 (map string_bytes args.entry.now)) }
{
    let mut words = Vec::new(alloc);
    let [_, behind @ ..] = args else {
        return Ok(words);
    };
    for arg in behind {
        words.push(arg.as_str())?;
    }
    Ok(words)
}

/// Whether a word may be that of a file: it does not begin with a hyphen.
pub fn is_file_word(word: &str) -> bool
    ensures { IsTrue result ↔ IsFileWord word.now }
{
    match word.as_bytes() {
        [b'-', ..] => false,
        _ => true,
    }
}
