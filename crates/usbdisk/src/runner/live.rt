//! The words of the program that serves an image file line by line.
ghost use Rattle.std.specs.Prelude.{IfSome, IfNone, map};
ghost use Rattle.usbdisk.specs.runner.Live.{AreLiveWords, IsLiveLine};

use crate::console::is_file_word;
use crate::runner::task::read_packet_ending;
use bot_machine::PacketSize;

/// The image and the size of packets that these words tell, if they are exactly a word for the
/// image, behind which `--packet 64` or `--packet 512` may stand: 512 bytes where nothing is told.
/// No word for an image begins with a hyphen.
pub fn read_live_words<'a>(words: &'a [&'a str]) -> Option<(&'a str, PacketSize)>
    ensures words { IfSome result (λ told. AreLiveWords (map (λ word. word.now) words.entry.now)
        told.0.now told.1) }
    ensures none { IfNone result (IsLiveLine (map (λ word. word.now) words.entry.now) → ⊥) }
{
    let [image, ending @ ..] = words else {
        return None;
    };
    if !is_file_word(image) {
        return None;
    }
    Some((image, read_packet_ending(ending)?))
}
