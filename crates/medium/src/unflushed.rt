//! A write that a cut may lose.

/// The bytes of a sector that no flush has made durable yet.
#[derive(Clone, Copy, Debug)]
pub struct UnflushedWrite {
    pub sector: u64,
    pub block: [u8; 512],
}
