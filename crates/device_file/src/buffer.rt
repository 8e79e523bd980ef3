//! The memory of a copy.
ghost use Rattle.std.specs.Prelude.{◌≡◌, ◌*◌, ◌/◌, ◌≤◌, IfOk, length};

use crate::run::Run;
use std::alloc::{AllocError, Global};
use window::SECTOR;

// How many bytes of a file are read at once: 256 sectors.
const AT_ONCE: usize = 256 * SECTOR;

/// The memory of a copy: a run that waits to be written, and what is read of a file at once.
#[derive(Drop)]
pub struct CopyBuffer {
    pub run: Run,
    pub bytes: Vec<u8>,
    pub ghost some: { 512 ≤ length bytes.items },
}

impl CopyBuffer {
    /// A buffer by which 256 sectors are read at once.
    ///
    /// # Errors
    ///
    /// Memory ran out.
    pub fn new(alloc: Global) -> Result<CopyBuffer, AllocError>
        ensures { IfOk result (λ buffer. length buffer.bytes.items ≡ 256 * 512) }
    {
        Ok(CopyBuffer {
            run: Run::new(alloc)?,
            bytes: vec![in alloc; 0u8; AT_ONCE]?,
        })
    }

    /// How many sectors are read at once.
    pub(crate) fn sectors(&self) -> u64
        ensures { result ≡ length self.now.bytes.items / 512 }
    {
        (self.bytes.len() / SECTOR) as u64
    }
}
