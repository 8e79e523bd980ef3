//! The lines that tell answers.
ghost use Rattle.std.specs.Prelude.{◌≡◌, ◌≤◌, ◌++◌, length};
ghost use Rattle.usbdisk.specs.runner.Text.{line_of, line_for, data_line};

use arrayvec::ArrayVec;
use bot_machine::{Answer, Event};

/// The bytes of the longest line: `data `, the digits of 512 bytes, and a line feed.
pub const LONGEST_LINE: usize = 1030;

/// A line of text with its line feed, or nothing.
pub type TextLine = ArrayVec<u8, LONGEST_LINE>;

/// What is written for an event: the line of its answer, or nothing for a step in the background.
pub fn event_line(event: &Event, answer: &Answer) -> TextLine
    ensures { result.items ≡ line_for event.now answer.now }
{
    match event {
        Event::Tick => ArrayVec::new(),
        _ => answer_line(answer),
    }
}

// The line that tells an answer.
fn answer_line(answer: &Answer) -> TextLine
    ensures { result.items ≡ line_of answer.now }
{
    match answer {
        Answer::Ack => plain_line(b"ack\n"),
        Answer::Nak => plain_line(b"nak\n"),
        Answer::Stall => plain_line(b"stall\n"),
        Answer::Data(packet) => hex_line(packet.as_slice()),
        Answer::Byte(byte) => hex_line(&[*byte]),
        Answer::Two(bytes) => hex_line(bytes),
        Answer::Ticked => ArrayVec::new(),
        Answer::Off => plain_line(b"off\n"),
    }
}

// A short line, as it is.
fn plain_line(text: &[u8]) -> TextLine
    requires { length text.now ≤ 1030 }
    ensures { result.items ≡ text.now }
{
    let mut line = ArrayVec::new();
    let _ = line.try_extend_from_slice(text);
    line
}

// `data ` and the bytes in hex.
fn hex_line(bytes: &[u8]) -> TextLine
    requires { length bytes.now ≤ 512 }
    ensures { result.items ≡ data_line bytes.now }
{
    let mut digits = [0; 1024];
    let digits = &mut digits[..2 * bytes.len()];
    let _ = hex::encode_to_slice(bytes, digits);
    let mut line = plain_line(b"data ");
    let _ = line.try_extend_from_slice(digits);
    line.push(b'\n');
    line
}
