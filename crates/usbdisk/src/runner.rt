//! Scripts of bulk packets, and the answers of a disk to them, line by line.

mod check;
mod events;
mod fault;
mod held;
mod identity;
mod image;
mod kept;
mod laws;
mod lifetimes;
mod line;
mod live;
mod number_room;
mod parts;
mod play;
mod player;
mod program;
mod read;
mod read_script;
mod script;
mod serve;
mod sim;
mod task;
mod text;
mod words;

pub use fault::{ScriptError, ScriptFault};
pub use identity::disk_identity;
pub use laws::lives_laws;
pub use live::read_live_words;
pub use player::{Player, ServeFault};
pub use program::{command, run_program};
pub use read_script::SCRIPT_LIMIT;
pub use script::run_script;
pub use serve::{LineSource, serve_player};
pub use sim::sim_script;
