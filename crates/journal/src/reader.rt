//! The reading of what names the blocks of a record, sector by sector.
ghost use Rattle.std.specs.Prelude.{◌≡◌, ◌<◌, ◌⊎◌, ◌↔◌, MatchOption, IsTrue};
ghost use Rattle.journal.specs.Formats.{shape_of};
ghost use Rattle.journal.specs.Places.{first_home};
ghost use Rattle.journal.specs.Naming.{IsReader, IsReading, IsUnread, Learns};
ghost use Rattle.journal.specs.Naming.{naming_place, IsFirstStage, HasNoStamps};
ghost use Rattle.journal.specs.declared.naming_stage.NamingStage.TheVariants.{Descriptor2, Named};
ghost use Rattle.journal.specs.declared.naming_stage.NamingStage.TheVariants.{Missing};

use crate::naming_stage::NamingStage;
use crate::{LogFormat, Record, Super, slot_of, v1, v2};

/// It tells which sector of a log it wants next, and takes that sector's bytes, until the blocks of
/// the record of a stamp are named, or the record is found not to be whole.
#[derive(Drop)]
pub struct RecordReader {
    pub sizes: Super,
    pub stamp: u64,
    pub stage: NamingStage,
    /// What was read so far.
    pub read: Record,
    pub ghost reads: { IsReader (shape_of sizes) stage read },
}

impl RecordReader {
    /// A reader of the record of this stamp, which has read nothing.
    pub fn new(sizes: &Super, stamp: u64) -> RecordReader
        ensures of { (result.sizes ≡ sizes.now) × (result.stamp ≡ stamp) }
        ensures unread { IsUnread (shape_of sizes.now) stamp result.stage result.read }
    {
        RecordReader {
            sizes: *sizes,
            stamp,
            stage: first_stage(sizes.format),
            read: Record::new(),
        }
    }

    /// It goes to the record of this stamp in a log of these sizes, in its place, of which it has
    /// read nothing: a new reader has 4 KB of zeros.
    pub fn restart(&mut self, sizes: &Super, stamp: u64)
        ensures of { (self.new.sizes ≡ sizes.now) × (self.new.stamp ≡ stamp) }
        ensures unread { IsUnread (shape_of sizes.now) stamp self.new.stage self.new.read }
    {
        self.sizes = *sizes;
        self.stamp = stamp;
        self.stage = first_stage(sizes.format);
    }

    /// The sector that is to be read next, which lies in the log; none where nothing is.
    pub fn next(&self) -> Option<u64>
        ensures { MatchOption result (¬ IsReading self.now.stage) (λ place.
            IsReading self.now.stage × (place < first_home (shape_of self.now.sizes))
            × (place ≡ naming_place (shape_of self.now.sizes) self.now.stamp self.now.stage)) }
    {
        let slot = slot_of(self.stamp, self.sizes.slots) as u8;
        match self.stage {
            NamingStage::Descriptor => Some(v1::place_of(slot)),
            NamingStage::Commit => Some(v1::commit_place(slot)),
            NamingStage::Commit2 => Some(v2::commit_place(slot)),
            NamingStage::Descriptor2(_, index) => Some(v2::descriptor_place(slot, index)),
            NamingStage::Named => None,
            NamingStage::Missing => None,
        }
    }

    /// Whether the data places of its record carry no stamp, so that the record is whole once its
    /// blocks are named.
    pub fn lacks_stamps(&self) -> bool
        ensures { IsTrue result ↔ HasNoStamps self.now.sizes.format }
    {
        self.sizes.format.migrates()
    }

    /// Takes the bytes of the sector that `next` asked for.
    pub fn take(&mut self, sector: &[u8; 512])
        requires { IsReading self.old.stage }
        ensures of { (self.new.sizes ≡ self.old.sizes) × (self.new.stamp ≡ self.old.stamp) }
        ensures learns { Learns (shape_of self.old.sizes) self.old.stamp self.old.stage
            self.old.read sector.now self.new.stage self.new.read }
    {
        match self.stage {
            NamingStage::Descriptor => {
                v1::describe(sector, self.stamp, &mut self.read);
                self.stage = NamingStage::Commit;
            }
            NamingStage::Commit => {
                let blocks = self.sizes.blocks;
                let is = v1::is_ended(sector, self.stamp, &self.read.numbers, blocks);
                self.stage = named_if(is);
            }
            NamingStage::Commit2 => {
                self.read.clear();
                self.stage = counted(v2::count_of(sector, self.stamp));
            }
            NamingStage::Descriptor2(count, index) => self.take_names(sector, count, index),
            NamingStage::Named => {}
            NamingStage::Missing => {}
        }
    }

    // Takes the bytes of a descriptor of format 2.
    fn take_names(&mut self, sector: &[u8; 512], count: u64, index: u64)
        requires { self.old.stage ≡ Descriptor2 count index }
        ensures { (self.new.sizes ≡ self.old.sizes) × (self.new.stamp ≡ self.old.stamp)
            × Learns (shape_of self.old.sizes) self.old.stamp (Descriptor2 count index)
            self.old.read sector.now self.new.stage self.new.read }
    {
        let Some(found) = v2::descriptor_of(sector, self.stamp, count, index) else {
            self.stage = NamingStage::Missing;
            return;
        };
        self.read.append(&found.numbers, &found.firsts);
        if index + 1 < v2::descriptors(count as u8) as u64 {
            self.stage = NamingStage::Descriptor2(count, index + 1);
        } else {
            self.stage = named_if(v2::are_blocks(&self.read.numbers, self.sizes.blocks));
        }
    }
}

// Where the reading of a record begins.
fn first_stage(format: LogFormat) -> NamingStage
    ensures { IsFirstStage format result }
{
    match format {
        LogFormat::One => NamingStage::Descriptor,
        LogFormat::Two => NamingStage::Commit2,
    }
}

// How it goes on behind a commit of format 2, which counts the blocks.
fn counted(count: Option<u64>) -> NamingStage
    ensures { MatchOption count (result ≡ Missing) (λ n. result ≡ Descriptor2 n 0) }
{
    match count {
        Some(count) => NamingStage::Descriptor2(count, 0),
        None => NamingStage::Missing,
    }
}

// Where it ends.
fn named_if(is: bool) -> NamingStage
    ensures { ((result ≡ Named) × IsTrue is) ⊎ ((result ≡ Missing) × (¬ IsTrue is)) }
{
    if is {
        NamingStage::Named
    } else {
        NamingStage::Missing
    }
}
