//! The super: the format of a medium, and how many blocks and log slots it has.
ghost use Rattle.std.specs.Prelude.{◌≡◌, ◌⊎◌, ◌≤◌, ◌<◌, ◌+◌, ◌*◌, ◌^◌, ◌↔◌};
ghost use Rattle.std.specs.Prelude.{IsTrue, IfOk, IsOkAnd, IfErr, IfSome, IsSomeAnd, MatchOption};
ghost use Rattle.std.specs.Prelude.{Some};
ghost use Rattle.journal.specs.Places.{IsFirstHome, IsInLimits, shape_with, slot_sectors_of};
ghost use Rattle.journal.specs.Sectors.{version_of};

use crate::fields::{has_zero_rest, mark_number, number_at, spell};
use crate::places::FIRST_SLOT;
use crate::{LogFormat, SuperFault};

/// What sector 0 holds.
#[derive(Clone, Copy, Debug, PartialEq, Eq)]
pub struct Super {
    pub format: LogFormat,
    /// How many logical blocks there are, 1 to 2^31.
    pub blocks: u64,
    /// How many slots the log has, 1 to 64.
    pub slots: u64,
    /// The first sector behind the log, which holds block 0.
    pub home: u64,
    pub ghost some_blocks: { 1 ≤ blocks },
    pub ghost most_blocks: { blocks ≤ 2 ^ 31 },
    pub ghost some_slots: { 1 ≤ slots },
    pub ghost most_slots: { slots ≤ 64 },
    pub ghost home_is: { IsFirstHome format slots home },
}

impl Super {
    ghost use Rattle.journal.specs.declared.log_format.LogFormat.TheVariants.{One};
    ghost use Rattle.journal.specs.Places.{Shape, migrated, new_shape};
    ghost use Rattle.journal.specs.Sectors.{IsSuper, IsSuperFault};
    ghost use Rattle.journal.specs.Formats.{shape_of};

    /// The super of a new medium of this format with `blocks` blocks and `slots` slots.
    pub fn new(format: LogFormat, blocks: u64, slots: u64) -> Super
        requires some_blocks { 1 ≤ blocks }
        requires most_blocks { blocks ≤ 2 ^ 31 }
        requires some_slots { 1 ≤ slots }
        requires most_slots { slots ≤ 64 }
        ensures { shape_of result ≡ new_shape format blocks slots }
    {
        Super {
            format,
            blocks,
            slots,
            home: FIRST_SLOT + format.slot_sectors() * slots,
        }
    }

    /// The super of a medium whose block 0 is at home in sector `home`, as where a page of its
    /// device begins: directly behind the log, or in format 2 up to 248 sectors further.
    ///
    /// None where a size is out of its limits, or home lies elsewhere.
    pub fn with_home(format: LogFormat, blocks: u64, slots: u64, home: u64) -> Option<Super>
        ensures { let shape = shape_with format blocks slots (Some home) in
            MatchOption result (¬ IsInLimits shape) (λ sizes. shape_of sizes ≡ shape) }
    {
        if are_sizes(format, blocks, slots, home) {
            Some(Super {
                format,
                blocks,
                slots,
                home,
            })
        } else {
            None
        }
    }

    /// The super after a migration to format 2: the same blocks at home in the same sectors, and as
    /// many slots as lie in the log of format 1.
    pub fn migrated(&self) -> Super
        requires one { self.now.format ≡ One }
        requires room { 5 ≤ self.now.slots }
        ensures { shape_of result ≡ migrated (shape_of self.now) }
    {
        let sectors = LogFormat::One.slot_sectors() * self.slots;
        Super {
            format: LogFormat::Two,
            blocks: self.blocks,
            slots: sectors / LogFormat::Two.slot_sectors(),
            home: self.home,
        }
    }

    /// The home sector of a block.
    pub fn home_of(&self, block: u64) -> u64
        requires { block < self.now.blocks }
        ensures { result ≡ self.now.home + block }
    {
        self.home + block
    }

    /// How many sectors the super, the head, the log and the blocks at home take.
    pub fn sectors(&self) -> u64
        ensures { result ≡ self.now.home + self.now.blocks }
    {
        self.home + self.blocks
    }

    /// The bytes of the super.
    pub fn encode(&self) -> [u8; 512]
        ensures { IsSuper (shape_of self.now) result }
    {
        let numbers = [
            mark_number(b"RDSUPER1"),
            self.format.version(),
            self.blocks,
            self.slots,
            FIRST_SLOT,
            self.home,
        ];
        let mut sector = [0; 512];
        spell(&mut sector, &numbers);
        sector
    }

    /// The super that these bytes spell, or the first of their faults.
    ///
    /// # Errors
    ///
    /// The first fault that applies, in the order of `SuperFault`.
    #[tactic(auto, using(crate::proofs::SectorNumbers::super_begins))]
    pub fn decode(sector: &[u8; 512]) -> Result<Super, SuperFault>
        ensures ok { IfOk result (λ sizes. IsSuper (shape_of sizes) sector.now) }
        ensures all { (shape : Shape) → IsSuper shape sector.now
            → IsOkAnd result (λ sizes. shape_of sizes ≡ shape) }
        ensures err { IfErr result (λ fault. IsSuperFault fault sector.now) }
    {
        if number_at(sector, 0) != mark_number(b"RDSUPER1") {
            return Err(SuperFault::Magic);
        }
        let Some(format) = LogFormat::of_version(number_at(sector, 1)) else {
            return Err(SuperFault::Version);
        };
        if !has_zero_rest(sector) {
            return Err(SuperFault::Rest);
        }
        let (blocks, slots) = (number_at(sector, 2), number_at(sector, 3));
        let home = number_at(sector, 5);
        let Some(sizes) = Super::with_home(format, blocks, slots, home) else {
            return Err(SuperFault::Sizes);
        };
        if sizes.encode() == *sector {
            Ok(sizes)
        } else {
            Err(SuperFault::Sizes)
        }
    }
}

// Whether the sizes are in their limits, and home begins where it has to.
fn are_sizes(format: LogFormat, blocks: u64, slots: u64, home: u64) -> bool
    ensures { IsTrue result ↔ ((1 ≤ blocks) × (blocks ≤ 2 ^ 31) × (1 ≤ slots) × (slots ≤ 64)
        × IsFirstHome format slots home) }
{
    1 <= blocks
        && blocks <= 1 << 31
        && 1 <= slots
        && slots <= 64
        && is_first_home(format, slots as u8, home)
}

// Whether home begins where a log of `slots` slots ends, or less than a slot behind that.
fn is_first_home(format: LogFormat, slots: u8, home: u64) -> bool
    ensures { IsTrue result ↔ IsFirstHome format slots home }
{
    let end = FIRST_SLOT + format.slot_sectors() * u64::from(slots);
    end <= home && home < end + format.gap()
}
