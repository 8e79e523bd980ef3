//! The words of a command line.
ghost use Rattle.std.specs.Prelude.{◌≡◌, ◌≤◌, ◌⊎◌, [], ◌∷◌, IfOk, IfErr, IfSome, IfNone};
ghost use Rattle.std.specs.Prelude.{map, length};
ghost use Rattle.clap.specs.Words.{App, Rule, app_of, kind_of, with_rule, with_subcommand};
ghost use Rattle.usbdisk.specs.runner.Parser.{IsArgOf, IsParserOf, word_rule, option_rule};
ghost use Rattle.usbdisk.specs.runner.Parser.{free_option_rule, bare_app};
ghost use Rattle.usbdisk.specs.runner.Parser.{usbdisk_app, format_app, migrate_app, script_app};
ghost use Rattle.usbdisk.specs.runner.Task.{SpellsTask, IsCommandLine, IsFormatEnding};
ghost use Rattle.usbdisk.specs.runner.Task.{IsPacketEnding};
ghost use Rattle.usbdisk.specs.runner.Task.{refusal_of_kind};

use crate::console::{Refusal, is_file_word, read_number};
use crate::runner::image::ImageSizes;
use bot_machine::PacketSize;
use clap::error::ErrorKind;
use clap::{Arg, Command};
use journal::LogFormat;
use std::alloc::{AllocError, Global};

// The greatest size that a word may tell.
const MOST: u64 = 4_294_967_295;

/// What a command line asks for.
#[derive(Clone, Copy)]
pub(crate) enum Task<'a> {
    /// To make an image of these sizes, whose blocks are zeros.
    Format {
        image: &'a str,
        sizes: ImageSizes,
    },
    /// To bring an image file to format 2.
    Migrate {
        image: &'a str,
    },
    /// To play a script on an image file, with packets of a size.
    Run {
        image: &'a str,
        script: &'a str,
        size: PacketSize,
    },
    /// To play a script on a simulated medium that holds an image, with packets of a size.
    Sim {
        image: &'a str,
        script: &'a str,
        size: PacketSize,
    },
}

/// The name of an option, and the word behind it.
#[derive(Clone, Copy)]
struct OptionWords<'a> {
    name: &'a str,
    value: &'a str,
}

/// Reads the words after the program's name: `format IMAGE --blocks N --slots K`, behind which
/// `--format 1` or `--format 2` may stand, `migrate IMAGE`, `run IMAGE SCRIPT` or
/// `sim IMAGE SCRIPT`, behind which `--packet 64` or `--packet 512` may stand. No file word begins
/// with a hyphen.
#[inline(never)]
pub(crate) fn read_words<'a>(alloc: Global, words: &'a [&'a str]) -> Result<Task<'a>, Refusal>
    ensures spelled { IfOk result (SpellsTask (map (λ word. word.now) words.entry.now)) }
    ensures refused { IfErr result (λ refusal. (refusal ≡ Refusal.NoMemory)
        ⊎ ((refusal ≡ Refusal.Words)
        × (IsCommandLine (map (λ word. word.now) words.entry.now) → ⊥))) }
{
    let Ok(parser) = parser(alloc) else {
        return Err(Refusal::NoMemory);
    };
    if let Err(error) = parser.try_get_matches_from(words) {
        return Err(refusal_of(error));
    }
    match exactly(words) {
        Some(task) => Ok(task),
        None => Err(Refusal::Words),
    }
}

// Why words are refused that the parser does not take.
fn refusal_of(error: clap::Error) -> Refusal
    ensures { result ≡ refusal_of_kind (kind_of error) }
{
    match error.kind() {
        ErrorKind::OutOfMemory => Refusal::NoMemory,
        _ => Refusal::Words,
    }
}

// The command line, as a parser knows it. It also takes a hyphen alone for a file, `--`, options in
// any order, and any text for a number.
fn parser<'a>(alloc: Global) -> Result<Command<'a>, AllocError>
    ensures { IfOk result (λ command. app_of command ≡ usbdisk_app) }
{
    let formats = with_parser(bare_parser(alloc), format_parser(alloc))?;
    let migrates = with_parser(formats, migrate_parser(alloc))?;
    let runs = with_parser(migrates, script_parser(alloc, "run"))?;
    with_parser(runs, script_parser(alloc, "sim"))
}

// The program with no subcommand yet.
fn bare_parser<'a>(alloc: Global) -> Command<'a>
    ensures { app_of result ≡ bare_app }
{
    Command::new(alloc, "usbdisk")
        .no_binary_name(true)
        .subcommand_required(true)
}

// A command with one more subcommand, where there was memory for that one.
fn with_parser<'a>(
    command: Command<'a>,
    part: Result<Command<'a>, AllocError>,
) -> Result<Command<'a>, AllocError>
    ensures { (app : App) → IfOk part.entry (IsParserOf app)
        → IfOk result (λ more. app_of more ≡ with_subcommand (app_of command.entry) app.top) }
{
    match part {
        Ok(part) => command.subcommand(part),
        Err(error) => Err(error),
    }
}

// `format IMAGE --blocks N --slots K [--format F]`.
fn format_parser<'a>(alloc: Global) -> Result<Command<'a>, AllocError>
    ensures { IfOk result (IsParserOf format_app) }
{
    let image = with_arg(Ok(Command::new(alloc, "format")), word(alloc, "IMAGE"));
    let blocks = with_arg(image, option(alloc, "blocks"));
    let slots = with_arg(blocks, option(alloc, "slots"));
    with_arg(slots, free_option(alloc, "format"))
}

// `migrate IMAGE`.
fn migrate_parser<'a>(alloc: Global) -> Result<Command<'a>, AllocError>
    ensures { IfOk result (IsParserOf migrate_app) }
{
    with_arg(Ok(Command::new(alloc, "migrate")), word(alloc, "IMAGE"))
}

// `run IMAGE SCRIPT [--packet P]` or `sim IMAGE SCRIPT [--packet P]`.
fn script_parser<'a>(alloc: Global, verb: &'a str) -> Result<Command<'a>, AllocError>
    ensures { IfOk result (IsParserOf (script_app verb.entry.now)) }
{
    let image = with_arg(Ok(Command::new(alloc, verb)), word(alloc, "IMAGE"));
    let script = with_arg(image, word(alloc, "SCRIPT"));
    with_arg(script, free_option(alloc, "packet"))
}

// A word that must be there.
fn word<'a>(alloc: Global, name: &'a str) -> Arg<'a>
    ensures { IsArgOf (word_rule name.entry.now) result }
{
    Arg::new(alloc, name).required(true)
}

// An option that must be there.
fn option<'a>(alloc: Global, name: &'a str) -> Arg<'a>
    ensures { IsArgOf (option_rule name.entry.now) result }
{
    Arg::new(alloc, name).long(name).required(true)
}

// An option that may be there.
fn free_option<'a>(alloc: Global, name: &'a str) -> Arg<'a>
    ensures { IsArgOf (free_option_rule name.entry.now) result }
{
    Arg::new(alloc, name).long(name)
}

// A command with one more word or option, where there was memory for it so far.
fn with_arg<'a>(
    command: Result<Command<'a>, AllocError>,
    arg: Arg<'a>,
) -> Result<Command<'a>, AllocError>
    ensures { (app : App) (rule : Rule) → IfOk command.entry (IsParserOf app)
        → IsArgOf rule arg.entry → IfOk result (IsParserOf (with_rule app rule)) }
{
    match command {
        Ok(command) => command.arg(arg),
        Err(error) => Err(error),
    }
}

// What the words ask for, if they are exactly as shown.
fn exactly<'a>(words: &'a [&'a str]) -> Option<Task<'a>>
    ensures task { IfSome result (SpellsTask (map (λ word. word.now) words.entry.now)) }
    ensures none { IfNone result (IsCommandLine (map (λ word. word.now) words.entry.now) → ⊥) }
{
    match words {
        [verb, image] => migrate_task(verb, image),
        [verb, image, first, blocks, second, slots, ending @ ..] => {
            let first = OptionWords {
                name: first,
                value: blocks,
            };
            let second = OptionWords {
                name: second,
                value: slots,
            };
            format_task(verb, image, first, second, ending)
        }
        [verb, image, script, ending @ ..] => script_task(verb, image, script, ending),
        _ => None,
    }
}

// What two words ask for.
fn migrate_task<'a>(verb: &str, image: &'a str) -> Option<Task<'a>>
    ensures task { IfSome result (SpellsTask (verb.now ∷ image.entry.now ∷ [])) }
    ensures none { IfNone result (IsCommandLine (verb.now ∷ image.entry.now ∷ []) → ⊥) }
{
    if verb != "migrate" || !is_file_word(image) {
        return None;
    }
    Some(Task::Migrate { image })
}

// What three words ask for, and the few behind them.
fn script_task<'a>(verb: &str, image: &'a str, script: &'a str, ending: &[&str]) -> Option<Task<'a>>
    requires { length ending.now ≤ 2 }
    ensures task { IfSome result (SpellsTask (verb.now ∷ image.entry.now ∷ script.entry.now
        ∷ map (λ word. word.now) ending.now)) }
    ensures none { IfNone result (IsCommandLine (verb.now ∷ image.entry.now ∷ script.entry.now
        ∷ map (λ word. word.now) ending.now) → ⊥) }
{
    if !is_file_word(image) || !is_file_word(script) {
        return None;
    }
    let size = read_packet_ending(ending)?;
    if verb == "run" {
        return Some(Task::Run {
            image,
            script,
            size,
        });
    }
    if verb == "sim" {
        return Some(Task::Sim {
            image,
            script,
            size,
        });
    }
    None
}

/// The size of a packet that the words behind the files tell: 512 bytes, where there are none.
pub(crate) fn read_packet_ending(ending: &[&str]) -> Option<PacketSize>
    ensures size { IfSome result (IsPacketEnding (map (λ word. word.now) ending.now)) }
    ensures none { IfNone result ((size : PacketSize)
        → IsPacketEnding (map (λ word. word.now) ending.now) size → ⊥) }
{
    match ending {
        [] => Some(PacketSize::High512),
        [name, bytes] => named_size(name, bytes),
        _ => None,
    }
}

// The size of a packet of `bytes` bytes, behind this name.
fn named_size(name: &str, bytes: &str) -> Option<PacketSize>
    ensures size { IfSome result (IsPacketEnding (name.now ∷ bytes.now ∷ [])) }
    ensures none { IfNone result ((size : PacketSize)
        → IsPacketEnding (name.now ∷ bytes.now ∷ []) size → ⊥) }
{
    if name != "--packet" {
        return None;
    }
    match bytes {
        "64" => Some(PacketSize::Full64),
        "512" => Some(PacketSize::High512),
        _ => None,
    }
}

// What six words ask for, and those behind them.
fn format_task<'a>(
    verb: &str,
    image: &'a str,
    first: OptionWords,
    second: OptionWords,
    ending: &[&str],
) -> Option<Task<'a>>
    ensures task { IfSome result (SpellsTask (verb.now ∷ image.entry.now ∷ first.entry.name.now
        ∷ first.entry.value.now ∷ second.entry.name.now ∷ second.entry.value.now
        ∷ map (λ word. word.now) ending.now)) }
    ensures none { IfNone result (IsCommandLine (verb.now ∷ image.entry.now ∷ first.entry.name.now
        ∷ first.entry.value.now ∷ second.entry.name.now ∷ second.entry.value.now
        ∷ map (λ word. word.now) ending.now) → ⊥) }
{
    if verb != "format" || first.name != "--blocks" || second.name != "--slots" {
        return None;
    }
    if !is_file_word(image) {
        return None;
    }
    let blocks = read_number(first.value.as_bytes(), 0, MOST)?;
    let slots = read_number(second.value.as_bytes(), 0, MOST)?;
    let format = read_format_ending(ending)?;
    let sizes = ImageSizes {
        format,
        blocks,
        slots,
    };
    Some(Task::Format { image, sizes })
}

// The format that the words behind the sizes tell: format 1, where there are none.
fn read_format_ending(ending: &[&str]) -> Option<LogFormat>
    ensures format { IfSome result (IsFormatEnding (map (λ word. word.now) ending.now)) }
    ensures none { IfNone result ((format : LogFormat)
        → IsFormatEnding (map (λ word. word.now) ending.now) format → ⊥) }
{
    match ending {
        [] => Some(LogFormat::One),
        [name, number] => named_format(name, number),
        _ => None,
    }
}

// The format with this number, behind this name.
fn named_format(name: &str, number: &str) -> Option<LogFormat>
    ensures format { IfSome result (IsFormatEnding (name.now ∷ number.now ∷ [])) }
    ensures none { IfNone result ((format : LogFormat)
        → IsFormatEnding (name.now ∷ number.now ∷ []) format → ⊥) }
{
    if name != "--format" {
        return None;
    }
    match number {
        "1" => Some(LogFormat::One),
        "2" => Some(LogFormat::Two),
        _ => None,
    }
}
