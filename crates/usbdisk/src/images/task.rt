//! The words of a command line.
ghost use Rattle.std.specs.Prelude.{◌≡◌, ◌≢◌, ◌≤◌, ◌*◌, ◌^◌, [], ◌∷◌, ℕ, map, codes};
ghost use Rattle.std.specs.Prelude.{Some, IfSome, IfNone, MatchOption};
ghost use Rattle.usbdisk.specs.console.Numbers.{SpellsNumber};
ghost use Rattle.usbdisk.specs.console.Words.{format_word};
ghost use Rattle.usbdisk.specs.images.Task.{
  AreAlignWords,
  AreNewOptions,
  AreOptions,
  Asks,
  HasNewOptions,
  HasOptions,
  IsExportLine,
  IsImportLine,
  IsMakeLine,
  IsUnit,
  SpellsBytes,
  Wanted,
  replace_words,
  wanted_of,
};
ghost use Rattle.device_file.specs.declared.existing.Existing.{Existing};
ghost use Rattle.journal.specs.declared.log_format.LogFormat.{LogFormat};

use crate::console::{is_file_word, read_number};
use device_file::Existing;
use journal::LogFormat;

// The greatest size that a word may tell.
const MOST: u64 = 4_294_967_295;

/// What an image is made with: the slots of its log, its format, and what is done with a file that
/// is there.
#[derive(Clone, Copy)]
pub(crate) struct ImageOptions {
    pub(crate) slots: u64,
    pub(crate) format: LogFormat,
    pub(crate) existing: Existing,
}

/// The sizes of a new image.
#[derive(Clone, Copy)]
pub(crate) struct NewSizes {
    pub(crate) format: LogFormat,
    pub(crate) blocks: u64,
    pub(crate) slots: u64,
    /// The bytes of a page of its device, where its blocks are to begin at one.
    pub(crate) align: Option<u64>,
}

/// What a command line asks for.
#[derive(Clone, Copy)]
pub(crate) enum Task<'a> {
    /// What names one file at most.
    Image(ImageTask<'a>),
    /// To make an image of the blocks of a plain file.
    Import {
        raw: &'a str,
        image: &'a str,
        options: ImageOptions,
    },
    /// To copy the blocks of an image to a plain file.
    Export {
        image: &'a str,
        raw: &'a str,
        existing: Existing,
    },
}

/// What a command line asks for that names one file at most.
#[derive(Clone, Copy)]
pub(crate) enum ImageTask<'a> {
    /// To tell the commands.
    Help,
    /// To tell the version.
    Version,
    /// To tell what is in an image.
    Show {
        image: &'a str,
    },
    /// To bring an image to format 2.
    Migrate {
        image: &'a str,
    },
    /// To make an image whose blocks are zeros.
    Make {
        image: &'a str,
        sizes: NewSizes,
        existing: Existing,
    },
}

/// Reads the words after the program's name: `--help`, `--version`, `show IMAGE`, `migrate IMAGE`,
/// `make IMAGE --blocks N --slots K --format F`, perhaps with `--align A`, `import RAW IMAGE
/// --slots K --format F`, or `export IMAGE RAW`. Behind the last three `--replace` may stand. No
/// file word begins with a hyphen.
pub(crate) fn read_words<'a>(words: &'a [&'a str]) -> Option<Task<'a>>
    ensures task { IfSome result
        (λ task. Asks (map (λ word. word.now) words.entry.now) (wanted_of task)) }
    ensures none { IfNone result ((wanted : Wanted)
        → Asks (map (λ word. word.now) words.entry.now) wanted → ⊥) }
{
    match words {
        [word] => short_task(word),
        [verb, image] => image_task(verb, image),
        [verb, first, second, rest @ ..] => long_task(verb, first, second, rest),
        _ => None,
    }
}

// What one word asks for.
fn short_task<'a>(word: &str) -> Option<Task<'a>>
    ensures task { IfSome result (λ task. Asks (word.now ∷ []) (wanted_of task)) }
    ensures none { IfNone result ((wanted : Wanted) → Asks (word.now ∷ []) wanted → ⊥) }
{
    match word {
        "--help" => Some(Task::Image(ImageTask::Help)),
        "--version" => Some(Task::Image(ImageTask::Version)),
        _ => None,
    }
}

// What the name of a command and a word for an image ask for.
fn image_task<'a>(verb: &str, image: &'a str) -> Option<Task<'a>>
    ensures task { IfSome result
        (λ task. Asks (verb.now ∷ image.entry.now ∷ []) (wanted_of task)) }
    ensures none { IfNone result ((wanted : Wanted)
        → Asks (verb.now ∷ image.entry.now ∷ []) wanted → ⊥) }
{
    if !is_file_word(image) {
        return None;
    }
    match verb {
        "show" => Some(Task::Image(ImageTask::Show { image })),
        "migrate" => Some(Task::Image(ImageTask::Migrate { image })),
        _ => None,
    }
}

// What three words ask for, and those behind them.
fn long_task<'a>(verb: &str, first: &'a str, second: &'a str, rest: &[&str]) -> Option<Task<'a>>
    ensures task { IfSome result (λ task. Asks (verb.now ∷ first.entry.now ∷ second.entry.now
        ∷ map (λ word. word.now) rest.now) (wanted_of task)) }
    ensures none { IfNone result ((wanted : Wanted) → Asks (verb.now ∷ first.entry.now
        ∷ second.entry.now ∷ map (λ word. word.now) rest.now) wanted → ⊥) }
{
    match verb {
        "make" => make_task(first, second, rest),
        "import" => import_task(first, second, rest),
        "export" => export_task(first, second, rest),
        _ => None,
    }
}

// What the words behind `make` ask for.
fn make_task<'a>(image: &'a str, first: &str, rest: &[&str]) -> Option<Task<'a>>
    ensures task { IfSome result (λ task. Asks (codes "make" ∷ image.entry.now ∷ first.now
        ∷ map (λ word. word.now) rest.now) (wanted_of task)) }
    ensures none { IfNone result (IsMakeLine (codes "make" ∷ image.entry.now ∷ first.now
        ∷ map (λ word. word.now) rest.now) → ⊥) }
{
    match rest {
        [blocks, options @ ..] => sized_task(image, first, blocks, options),
        _ => None,
    }
}

// What the words behind `make` ask for, of which the blocks are told first.
fn sized_task<'a>(image: &'a str, first: &str, blocks: &str, options: &[&str]) -> Option<Task<'a>>
    ensures task { IfSome result (λ task. Asks (codes "make" ∷ image.entry.now ∷ first.now
        ∷ blocks.now ∷ map (λ word. word.now) options.now) (wanted_of task)) }
    ensures none { IfNone result (IsMakeLine (codes "make" ∷ image.entry.now ∷ first.now
        ∷ blocks.now ∷ map (λ word. word.now) options.now) → ⊥) }
{
    if first != "--blocks" || !is_file_word(image) {
        return None;
    }
    let blocks = read_number(blocks.as_bytes(), 0, MOST)?;
    let (options, align) = read_new_options(options)?;
    Some(Task::Image(ImageTask::Make {
        image,
        sizes: NewSizes {
            format: options.format,
            blocks,
            slots: options.slots,
            align,
        },
        existing: options.existing,
    }))
}

// What an image is made with, from the words at the end, and the page at which its blocks begin,
// where one is told.
fn read_new_options(words: &[&str]) -> Option<(ImageOptions, Option<u64>)>
    ensures some { IfSome result (λ found. AreNewOptions (map (λ word. word.now) words.now)
        found.0.format found.0.slots found.1 found.0.existing) }
    ensures none { IfNone result (HasNewOptions (map (λ word. word.now) words.now) → ⊥) }
{
    match words {
        [first, slots, second, format, third, align, ending @ ..] => {
            let options = options_of(first, slots, second, format, ending)?;
            let align = read_align(third, align)?;
            Some((options, Some(align)))
        }
        _ => Some((read_options(words)?, None)),
    }
}

// The bytes of a page, behind their name.
fn read_align(name: &str, word: &str) -> Option<u64>
    ensures some { IfSome result
        (λ bytes. AreAlignWords (name.now ∷ word.now ∷ []) (Some bytes)) }
    ensures none { IfNone result ((bytes : ℕ)
        → AreAlignWords (name.now ∷ word.now ∷ []) (Some bytes) → ⊥) }
{
    if name != "--align" {
        return None;
    }
    read_bytes(word.as_bytes())
}

// A number of bytes, perhaps in units of a power of 1024.
fn read_bytes(word: &[u8]) -> Option<u64>
    ensures some { IfSome result (SpellsBytes word.now) }
    ensures none { IfNone result ((bytes : ℕ) → SpellsBytes word.now bytes → ⊥) }
{
    let Some((last, digits)) = word.split_last() else {
        return None;
    };
    match unit_of(*last) {
        Some(unit) => read_units(digits, unit),
        None => read_number(word, 0, MOST),
    }
}

// The bytes of a unit, by the letter behind a number.
fn unit_of(letter: u8) -> Option<u64>
    ensures { MatchOption result ((letter ≢ 75) × (letter ≢ 77))
        (λ unit. IsUnit (letter ∷ []) unit × (unit ≤ 2 ^ 20)) }
{
    match letter {
        b'K' => Some(1024),
        b'M' => Some(1_048_576),
        _ => None,
    }
}

// A number of units of so many bytes.
fn read_units(digits: &[u8], unit: u64) -> Option<u64>
    requires { unit ≤ 2 ^ 20 }
    ensures some { IfSome result (λ bytes. (number : ℕ)
        × SpellsNumber 0 4294967295 digits.now number × (bytes ≡ number * unit)) }
    ensures none { IfNone result ((number : ℕ) → SpellsNumber 0 4294967295 digits.now number → ⊥) }
{
    let number = read_number(digits, 0, MOST)?;
    Some(number * unit)
}

// What the words behind `import` ask for.
fn import_task<'a>(raw: &'a str, image: &'a str, rest: &[&str]) -> Option<Task<'a>>
    ensures task { IfSome result (λ task. Asks (codes "import" ∷ raw.entry.now ∷ image.entry.now
        ∷ map (λ word. word.now) rest.now) (wanted_of task)) }
    ensures none { IfNone result (IsImportLine (codes "import" ∷ raw.entry.now ∷ image.entry.now
        ∷ map (λ word. word.now) rest.now) → ⊥) }
{
    if !is_file_word(raw) || !is_file_word(image) {
        return None;
    }
    let options = read_options(rest)?;
    Some(Task::Import {
        raw,
        image,
        options,
    })
}

// What an image is made with, from the words at the end.
fn read_options(words: &[&str]) -> Option<ImageOptions>
    ensures some { IfSome result (λ options. AreOptions (map (λ word. word.now) words.now)
        options.format options.slots options.existing) }
    ensures none { IfNone result (HasOptions (map (λ word. word.now) words.now) → ⊥) }
{
    match words {
        [first, slots, second, format, ending @ ..] => {
            options_of(first, slots, second, format, ending)
        }
        _ => None,
    }
}

// The same of four words, and of the one that may stand behind them.
fn options_of(
    first: &str,
    slots: &str,
    second: &str,
    format: &str,
    ending: &[&str],
) -> Option<ImageOptions>
    ensures some { IfSome result (λ options. AreOptions (first.now ∷ slots.now ∷ second.now
        ∷ format.now ∷ map (λ word. word.now) ending.now)
        options.format options.slots options.existing) }
    ensures none { IfNone result (HasOptions (first.now ∷ slots.now ∷ second.now ∷ format.now
        ∷ map (λ word. word.now) ending.now) → ⊥) }
{
    if first != "--slots" || second != "--format" {
        return None;
    }
    let slots = read_number(slots.as_bytes(), 0, MOST)?;
    let format = read_format(format)?;
    let existing = read_replace(ending)?;
    Some(ImageOptions {
        slots,
        format,
        existing,
    })
}

// What the words behind `export` ask for.
fn export_task<'a>(image: &'a str, raw: &'a str, ending: &[&str]) -> Option<Task<'a>>
    ensures task { IfSome result (λ task. Asks (codes "export" ∷ image.entry.now ∷ raw.entry.now
        ∷ map (λ word. word.now) ending.now) (wanted_of task)) }
    ensures none { IfNone result (IsExportLine (codes "export" ∷ image.entry.now ∷ raw.entry.now
        ∷ map (λ word. word.now) ending.now) → ⊥) }
{
    if !is_file_word(image) || !is_file_word(raw) {
        return None;
    }
    let existing = read_replace(ending)?;
    Some(Task::Export {
        image,
        raw,
        existing,
    })
}

// The format of this number.
fn read_format(number: &str) -> Option<LogFormat>
    ensures some { IfSome result (λ format. number.now ≡ format_word format) }
    ensures none { IfNone result ((format : LogFormat) → number.now ≡ format_word format → ⊥) }
{
    match number {
        "1" => Some(LogFormat::One),
        "2" => Some(LogFormat::Two),
        _ => None,
    }
}

// What is done with a file that is there, from the words at the end.
fn read_replace(ending: &[&str]) -> Option<Existing>
    ensures some { IfSome result
        (λ existing. map (λ word. word.now) ending.now ≡ replace_words existing) }
    ensures none { IfNone result ((existing : Existing)
        → map (λ word. word.now) ending.now ≡ replace_words existing → ⊥) }
{
    match ending {
        [] => Some(Existing::Keep),
        [word] => named_replace(word),
        _ => None,
    }
}

// What is done with it, by one word.
fn named_replace(word: &str) -> Option<Existing>
    ensures some { IfSome result (λ existing. word.now ∷ [] ≡ replace_words existing) }
    ensures none { IfNone result ((existing : Existing)
        → word.now ∷ [] ≡ replace_words existing → ⊥) }
{
    match word {
        "--replace" => Some(Existing::Replace),
        _ => None,
    }
}
