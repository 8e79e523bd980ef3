//! Which program the arguments are for: three are built as one.
ghost use Rattle.std.specs.Prelude.{◌≡◌, map, string_bytes};
ghost use Rattle.usbdisk.specs.console.Program.{IsNamed, own_arguments};

/// The programs that are built as one.
#[derive(Clone, Copy)]
pub enum Program {
    /// The one that plays scripts: the arguments are for it where they name no other.
    Scripts,
    /// The one of image files, by the word `image`.
    Image,
    /// The one that serves line by line, by the word `live`.
    Live,
}

/// Which program the arguments are for. A first word that names one takes the place of the
/// program's name, so that the words behind it are those of that program. Else the arguments stay.
pub fn take_program(args: &mut Vec<String>) -> Program
    ensures named { IsNamed (map string_bytes args.old.items) result }
    ensures own { map string_bytes args.new.items
        ≡ own_arguments result (map string_bytes args.old.items) }
{
    let program = named(args.as_slice());
    match program {
        Program::Scripts => {}
        Program::Image | Program::Live => {
            args.remove(0);
        }
    }
    program
}

// The program that the first word behind the name tells.
fn named(args: &[String]) -> Program
    ensures { IsNamed (map string_bytes args.now) result }
{
    let [_, word, ..] = args else {
        return Program::Scripts;
    };
    match word.as_str() {
        "image" => Program::Image,
        "live" => Program::Live,
        _ => Program::Scripts,
    }
}
