//! A reader is read to its end, up to a limit.
ghost use Rattle.std.specs.Prelude.{◌≡◌, ◌<◌, ◌≤◌, [], IfOk, IfErr, IfSome, Err, length};
ghost use Rattle.std.specs.Prelude.{MatchResult};
ghost use Rattle.std.specs.Io.KnownBytes.{Consumes, IsAtEnd};
ghost use Rattle.usbdisk.specs.runner.Refused.{IsReadSoFar};
ghost use Rattle.usbdisk.specs.runner.Streams.{IsAll};

use std::alloc::Global;
use std::io::{ErrorKind, Read};

/// Why a reader was not read to its end.
#[derive(Clone, Copy)]
pub enum ReadFault {
    /// It gave more bytes than the limit.
    TooLong,
    /// Memory ran out.
    NoMemory,
    /// It failed.
    Reader,
}

/// Reads to the end, if that comes after at most `limit` bytes.
///
/// # Errors
///
/// `TooLong` where more bytes come than the limit, `NoMemory`, or `Reader` where the reader failed:
/// whichever is met first.
pub fn read_to_limit<R: Read>(
    alloc: Global,
    reader: &mut R,
    limit: usize,
) -> Result<Vec<u8>, ReadFault>
    ensures all { IfOk result (λ bytes. IsAll (R.remaining reader.old) bytes.items) }
    ensures fits { IfOk result (λ bytes. length bytes.items ≤ limit) }
    ensures too_long { result ≡ Err ReadFault.TooLong
        → IfSome (R.remaining reader.old) (λ all. limit < length all) }
    ensures taken { MatchResult result (λ _. IsAtEnd (R.remaining reader.new))
        (λ fault. IsReadSoFar fault limit (R.remaining reader.old) (R.remaining reader.new)) }
{
    let bytes = Vec::new(alloc);
    read_into(bytes, reader, limit)
}

// Reads to the end, if that comes in time, behind nothing.
fn read_into<R: Read>(
    mut bytes: Vec<u8>,
    reader: &mut R,
    limit: usize,
) -> Result<Vec<u8>, ReadFault>
    requires { bytes.items ≡ [] }
    ensures read { IfOk result (λ all. Consumes (R.remaining reader.old) (R.remaining reader.new)
        all.items × (length all.items ≤ limit) × IsAtEnd (R.remaining reader.new)) }
    ensures stopped { IfErr result (λ fault.
        IsReadSoFar fault limit (R.remaining reader.old) (R.remaining reader.new)) }
{
    let mut chunk = [0; 4096];
    'reads: for _ in 0..u64::MAX {
        match reader.read(&mut chunk) {
            Ok(0) => return Ok(bytes),
            Ok(count) => {
                if count > limit - bytes.len() {
                    return Err(ReadFault::TooLong);
                }
                let Ok(()) = bytes.extend_from_slice(&chunk[..count]) else {
                    return Err(ReadFault::NoMemory);
                };
            }
            Err(error) if error.kind() == ErrorKind::Interrupted => {}
            Err(_) => return Err(ReadFault::Reader),
        }
    }
    Err(ReadFault::Reader)
}
