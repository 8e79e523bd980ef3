//! The program `usbdisk`: a disk behind the bulk-only transport, played by scripts. Behind the word
//! `image` it makes image files of any size, tells what is in them, and copies their blocks; behind
//! `live` it serves a disk, and answers each line of standard input before it reads more. What each
//! leaves of its files is what it gives back; here that is only let go of.
#![tactic(auto)]

mod console;
mod images;
mod live;
mod runner;

use console::{ArgumentFault, Program, arguments, take_program};
use live::Streams;
use std::process::ExitCode;
use window::DeviceHolds;

/// A program's arguments, its name first, or why they were not had.
type Arguments = Result<Vec<String>, ArgumentFault>;

fn main(rt: HostRuntime) -> ExitCode {
    let mut args = arguments(&rt);
    let program = match &mut args {
        Ok(all) => take_program(all),
        Err(_) => Program::Scripts,
    };
    ExitCode::from(match program {
        Program::Scripts => play(&rt, args),
        Program::Image => change_images(&rt, args),
        Program::Live => serve(&rt, args),
    })
}

// Plays scripts. It and the two below keep frames of their own, so that the stack has room for one
// of them and not for all.
#[inline(never)]
fn play(rt: &HostRuntime, args: Arguments) -> u8 {
    let ended = runner::run_program(rt, args, &mut rt.stdout(), &mut rt.stderr());
    ended.status
}

// Makes image files, shows them, and copies their blocks.
#[inline(never)]
fn change_images(rt: &HostRuntime, args: Arguments) -> u8 {
    let device = DeviceHolds::any();
    let ended = images::run_program(rt, args, &device, &mut rt.stdout(), &mut rt.stderr());
    ended.status
}

// Serves line by line.
#[inline(never)]
fn serve(rt: &HostRuntime, args: Arguments) -> u8 {
    let mut streams = Streams {
        input: rt.stdin(),
        out: rt.stdout(),
    };
    let device = DeviceHolds::any();
    let ended = live::run_live(rt, args, &device, &mut streams, &mut rt.stderr());
    ended.status
}
