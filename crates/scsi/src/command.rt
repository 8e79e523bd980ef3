//! The commands that the disk knows, with their fields.

/// Blocks in a row: the logical block address of the first, and how many (SBC-3 4.5).
#[derive(Clone, Copy, Debug, PartialEq, Eq)]
pub struct BlockRange {
    pub address: u64,
    pub count: u32,
}

/// What a READ or a WRITE moves (SBC-3, READ (10) and WRITE (10)).
#[derive(Clone, Copy, Debug, PartialEq, Eq)]
pub struct Transfer {
    /// The logical block address of the first block.
    pub address: u64,
    /// The transfer length, in blocks. Where it is 0 the command moves nothing.
    pub count: u32,
    /// Force unit access: the blocks are to be on the medium when the command ends.
    pub fua: bool,
}

/// A command, with those of its fields that say what to do.
#[derive(Clone, Copy, Debug, PartialEq, Eq)]
pub enum Command {
    TestUnitReady,
    /// The allocation length is in bytes, here and below: no more of an answer is sent.
    RequestSense {
        allocation: u8,
    },
    /// The code of a vital product data page, or none for standard INQUIRY data.
    Inquiry {
        page: Option<u8>,
        allocation: u16,
    },
    /// MODE SELECT (6), with the parameter list length in bytes.
    ModeSelect {
        length: u8,
    },
    /// MODE SENSE (6), with the page control: 0 current, 1 changeable, 2 default values.
    ModeSense {
        control: u8,
        page: u8,
        subpage: u8,
        allocation: u8,
    },
    ReadCapacity10,
    Read10(Transfer),
    Write10(Transfer),
    /// Count 0 stands for all blocks from the address on.
    SynchronizeCache10(BlockRange),
    Read16(Transfer),
    Write16(Transfer),
    /// As the one of 10 bytes.
    SynchronizeCache16(BlockRange),
    ReadCapacity16 {
        allocation: u32,
    },
}
