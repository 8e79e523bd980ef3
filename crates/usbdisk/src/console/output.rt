//! The writing of answers.
ghost use Rattle.usbdisk.specs.console.Streams.{WritesOut};

use std::io;
use std::io::{Error, ErrorKind, Write};

/// Writes bytes, and goes on where a write took only some of them or was interrupted.
///
/// # Errors
///
/// That of a write that failed, and `WriteZero` where one took nothing. Then a first part of the
/// bytes was written, and at least one is missing.
pub fn write_out<W: Write>(out: &mut W, bytes: &[u8]) -> io::Result<()>
    ensures { WritesOut (W.contents out.old) (W.contents out.new) bytes.now result }
{
    let mut rest = bytes;
    'writes: for _ in 0..u64::MAX {
        if rest.is_empty() {
            break;
        }
        match out.write(rest) {
            Ok(0) => break,
            Ok(count) => rest = &rest[count..],
            Err(error) if error.kind() == ErrorKind::Interrupted => {}
            Err(error) => return Err(error),
        }
    }
    if rest.is_empty() {
        return Ok(());
    }
    Err(Error::from(ErrorKind::WriteZero))
}
