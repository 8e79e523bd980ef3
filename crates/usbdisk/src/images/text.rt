//! The lines that tell what is in an image, and what was copied.
ghost use Rattle.std.specs.Prelude.{◌≡◌, ◌+◌, ◌<◌, ◌≤◌, ◌^◌, ◌++◌, length, IfOk, OnOk};
ghost use Rattle.std.specs.Prelude.{codes, decimal};
ghost use Rattle.usbdisk.specs.images.Texts.{blocks_text};
ghost use Rattle.usbdisk.specs.images.Showing.{image_text, sizes_text, number_line, record_lines};

use itoa::Buffer;
use recovery::Inspection;
use std::alloc::{AllocError, Global};

/// The lines that tell an image: its format, blocks, slots, first home sector and head, and of each
/// record that waits, the oldest first, its stamp and how many blocks it has.
pub(crate) fn text_of(alloc: Global, found: &Inspection) -> Result<Vec<u8>, AllocError>
    requires { found.now.head < 2 ^ 63 }
    ensures { IfOk result (λ text. text.items ≡ image_text found.now) }
{
    let mut text = sizes_lines(alloc, found)?;
    put_records(&mut text, found.head, found.waiting.as_slice())?;
    Ok(text)
}

// The lines of the sizes and the head.
fn sizes_lines(alloc: Global, found: &Inspection) -> Result<Vec<u8>, AllocError>
    ensures { IfOk result (λ text. text.items ≡ sizes_text found.now) }
{
    let mut text = Vec::new(alloc);
    put_number(&mut text, b"format ", found.sizes.format.version())?;
    put_number(&mut text, b"blocks ", found.sizes.blocks)?;
    put_number(&mut text, b"slots ", found.sizes.slots)?;
    put_number(&mut text, b"home ", found.sizes.home)?;
    put_number(&mut text, b"head ", found.head)?;
    Ok(text)
}

// A line for each record, from this stamp on.
fn put_records(text: &mut Vec<u8>, stamp: u64, counts: &[u8]) -> Result<(), AllocError>
    requires { stamp + length counts.now < 2 ^ 64 }
    ensures { OnOk result (text.new.items ≡ text.old.items ++ record_lines stamp counts.now) }
{
    let mut next = stamp;
    for count in counts {
        put_record(text, next, *count as u64)?;
        next += 1;
    }
    Ok(())
}

// The line of a record.
fn put_record(text: &mut Vec<u8>, stamp: u64, count: u64) -> Result<(), AllocError>
    ensures { OnOk result (text.new.items ≡ text.old.items
        ++ (codes "record " ++ decimal stamp ++ number_line (codes " ") count)) }
{
    let mut buffer = Buffer::new();
    text.extend_from_slice(b"record ")?;
    text.extend_from_slice(buffer.format(stamp).as_bytes())?;
    put_number(text, b" ", count)
}

// A word, a number and the line's end.
fn put_number(text: &mut Vec<u8>, word: &[u8], number: u64) -> Result<(), AllocError>
    ensures { OnOk result (text.new.items ≡ text.old.items ++ number_line word.now number) }
{
    let mut buffer = Buffer::new();
    text.extend_from_slice(word)?;
    text.extend_from_slice(buffer.format(number).as_bytes())?;
    text.push(b'\n')?;
    Ok(())
}

/// A line that tells what was done, and of how many blocks.
pub(crate) fn blocks_line(alloc: Global, done: &[u8], blocks: u64) -> Result<Vec<u8>, AllocError>
    ensures { IfOk result (λ text. text.items ≡ blocks_text done.now blocks) }
{
    let mut buffer = Buffer::new();
    let mut text = Vec::from_slice(alloc, done)?;
    text.extend_from_slice(buffer.format(blocks).as_bytes())?;
    text.extend_from_slice(b" blocks\n")?;
    Ok(text)
}
