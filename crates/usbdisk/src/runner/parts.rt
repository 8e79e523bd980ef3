//! The lines of a script and the words of a line.
ghost use Rattle.std.specs.Prelude.{◌≡◌, ◌==◌, ◌∷◌, length};
ghost use Rattle.std.specs.List.{position};
ghost use Rattle.std.specs.Iterator.{YieldsFirstBy, item_count};
ghost use Rattle.usbdisk.specs.runner.Lines.{parts_of, lines_of, words_of, parts_in};

use memchr::memchr;

/// The parts of a text, without the separators between them. What stands after the last separator
/// is a part too, perhaps an empty one.
#[derive(Drop)]
pub(crate) struct Parts<'a> {
    separator: u8,
    rest: Option<&'a [u8]>,
}

impl<'a> Parts<'a> {
    ghost use Rattle.usbdisk.specs.runner.Left.{parts_left};

    /// The lines of a script.
    pub(crate) fn lines(script: &'a [u8]) -> Parts<'a>
        ensures { parts_left result ≡ lines_of script.now }
    {
        Parts {
            separator: b'\n',
            rest: Some(script),
        }
    }

    /// The words of a text, between single spaces.
    pub(crate) fn words(text: &'a [u8]) -> Parts<'a>
        ensures { parts_left result ≡ words_of text.now }
    {
        Parts {
            separator: b' ',
            rest: Some(text),
        }
    }
}

impl<'a> Iterator for Parts<'a> {
    ghost use Rattle.usbdisk.specs.runner.Left.{parts_left};

    type Item = &'a [u8];

    ghost next_gives = { YieldsFirstBy (λ part. part.now) parts_left };

    ghost remaining = { item_count parts_left };

    fn next(&mut self) -> Option<&'a [u8]> {
        let (part, rest) = first_part(self.rest?, self.separator);
        self.rest = rest;
        Some(part)
    }
}

// The first part, and the bytes after its separator, if it has one.
fn first_part(bytes: &[u8], separator: u8) -> (&[u8], Option<&[u8]>)
    ensures { parts_of separator bytes.now ≡ result.0.now ∷ parts_in separator result.1 }
{
    match separator_at(bytes, separator) {
        None => (bytes, None),
        Some(end) => (&bytes[..end], Some(&bytes[end + 1..])),
    }
}

/// Where the first separator stands.
pub(crate) fn separator_at(bytes: &[u8], separator: u8) -> Option<usize>
    ensures { result ≡ position (λ byte. byte == separator) bytes.now }
{
    memchr(separator, bytes)
}
