//! The survey of the records that are whole, call by call.
ghost use Rattle.std.specs.Prelude.{◌≡◌, ◌<◌, ◌≤◌, ◌+◌, ◌^◌, List, ℕ, length};
ghost use Rattle.std.specs.Prelude.{MatchOption, IfSome};
ghost use Rattle.medium.specs.Tally.{none};
ghost use Rattle.medium.specs.Medium.{CutLeaves};
ghost use Rattle.journal.specs.Formats.{shape_of};
ghost use Rattle.journal.specs.Places.{first_home, sectors_of};
ghost use Rattle.journal.specs.Naming.{IsReading, IsUnread};
ghost use Rattle.journal.specs.declared.naming_stage.NamingStage.TheVariants.{Named};
ghost use Rattle.recovery.specs.Surveying.{CanSurvey, SurveyView, HoldsSurveyed, surveys_left};
ghost use Rattle.recovery.specs.Surveying.{IsSurveyStep, TakesName, TakesPlace};

use crate::copying::next_record;
use arrayvec::ArrayVec;
use journal::{LogFormat, NamingStage, RecordReader, Super, copy_place, is_data2, slot_of};
use medium::{Call, Machine, Medium};

/// The records from the head on are to be tried: what names the blocks of each is read, and where
/// its data places carry the stamp, these, up to the first record that is not whole.
#[derive(Drop)]
pub(crate) struct Surveying {
    pub reader: RecordReader,
    /// How many slots are left to be tried; none behind the first that has no whole record.
    pub left: u64,
    /// How many data places of this record carry its stamp.
    pub place: usize,
    /// How many blocks each whole record has.
    pub waiting: ArrayVec<u8, 64>,
    ghost goes: { CanSurvey reader left place (length waiting.items) },
}

impl Surveying {
    ghost use Rattle.recovery.specs.Starting.{IsNewSurvey};
    ghost use Rattle.recovery.specs.HoldsStart.{IsSurveyCall, TellsSurvey};

    /// One of which nothing is left.
    pub(crate) fn over() -> Surveying
        ensures { result.left ≡ 0 }
    {
        Surveying {
            reader: RecordReader::new(&Super::new(LogFormat::One, 1, 1), 0),
            left: 0,
            place: 0,
            waiting: ArrayVec::new(),
        }
    }

    /// It begins at the record of this stamp, in its place.
    pub(crate) fn begin(&mut self, sizes: &Super, stamp: u64)
        requires { stamp < 2 ^ 63 }
        ensures { IsNewSurvey sizes.now stamp self.new }
    {
        self.reader.restart(sizes, stamp);
        self.left = sizes.slots;
        self.place = 0;
        self.waiting.clear();
    }

    /// The next read, and which sector it names.
    pub(crate) fn call<M: Medium>(&self, sector: &mut [u8; 512]) -> Option<Call>
        ensures told { MatchOption result
            ((surveys_left self.now.reader self.now.left self.now.place ≡ none)
            × (sector.new ≡ sector.old))
            (λ call. TellsSurvey M.state self.now sector.old call sector.new) }
        ensures named { IfSome result (IsSurveyCall self.now.reader) }
    {
        if self.left == 0 {
            return None;
        }
        if let Some(place) = self.reader.next() {
            return Some(Call::Read(place));
        }
        let sizes = &self.reader.sizes;
        let slot = slot_of(self.reader.stamp, sizes.slots);
        Some(Call::Read(copy_place(sizes.format, slot, self.place)))
    }

    // A sector was read that names blocks.
    fn take(&mut self, sector: &[u8; 512])
        requires reading { IsReading self.old.reader.stage }
        requires left { 0 < self.old.left }
        ensures { (self.new.reader.sizes ≡ self.old.reader.sizes)
            × TakesName self.old.reader self.old.left self.old.place self.old.waiting.items
            sector.now self.new.reader self.new.left self.new.place self.new.waiting.items }
    {
        self.reader.take(sector);
        match self.reader.stage {
            NamingStage::Missing => self.left = 0,
            NamingStage::Named => {
                if self.reader.lacks_stamps() {
                    self.waiting.push(self.reader.read.numbers.len() as u8);
                    next_record(&mut self.reader);
                    self.left -= 1;
                }
            }
            _ => {}
        }
    }

    // A data place was read. It stands apart, so that a data place to compare with does not lie on
    // the stack under the reading of what names blocks.
    #[inline(never)]
    fn place_on(&mut self, sector: &[u8; 512])
        requires named { self.old.reader.stage ≡ Named }
        requires left { 0 < self.old.left }
        ensures { (self.new.reader.sizes ≡ self.old.reader.sizes)
            × TakesPlace self.old.reader self.old.left self.old.place self.old.waiting.items
            sector.now self.new.reader self.new.left self.new.place self.new.waiting.items }
    {
        let count = self.reader.read.numbers.len();
        if !is_data2(self.reader.stamp, sector) {
            self.left = 0;
        } else if self.place + 1 < count {
            self.place += 1;
        } else {
            self.waiting.push(count as u8);
            next_record(&mut self.reader);
            self.left -= 1;
            self.place = 0;
        }
    }
}

impl<M: Medium> Machine<M> for Surveying {
    ghost View = { SurveyView M };

    ghost fits = { λ s size. sectors_of (shape_of s.reader.sizes) ≤ size };

    ghost holds = { λ s had m view. HoldsSurveyed M.state s.reader s.left s.place s.waiting.items
        view m };

    ghost may = { λ view image. CutLeaves (M.state view.start).may_leave image };

    ghost reads = { λ s. first_home (shape_of s.reader.sizes) };

    ghost ends = { λ s. sectors_of (shape_of s.reader.sizes) };

    ghost cost = { λ s. surveys_left s.reader s.left s.place };

    ghost exact = { ⊥ };

    ghost due = { λ s. 0 < s.left };

    ghost after = { λ s got t. IsSurveyStep s.reader s.left s.place s.waiting.items got t.reader
        t.left t.place t.waiting.items };

    ghost gone = { λ s t. t ≡ s };

    fn next(&self, sector: &mut [u8; 512]) -> Option<Call> {
        self.call::<M>(sector)
    }

    fn made(&mut self, sector: &[u8; 512]) {
        match self.reader.next() {
            Some(_) => self.take(sector),
            None => self.place_on(sector),
        }
    }

    fn refused(&mut self) {}

    ghost leaves = { λ s had m view holds image cut. λ x. holds.quiet.sets_shrink x (image x)
        (cut x) };

    ghost room = { λ s size fits. fits };

    ghost goes_on = { λ s t got due after. record {
      reads_stay = rw after.sizes_stay (λ i. first_home (shape_of s.reader.sizes));
      ends_stay = rw after.sizes_stay (λ i. sectors_of (shape_of s.reader.sizes));
      fits_still = λ size fits. rw after.sizes_stay fits;
    } };
}
