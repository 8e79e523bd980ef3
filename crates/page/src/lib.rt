//! The library of the page on which one pulls the plug: a disk on a small medium, commands of a
//! host, losses of power, and what a start then serves. `docs/page` calls its exports.
#![tactic(auto)]

mod commands;
mod exports;
mod extent;
mod fault;
mod life;
mod looks;
mod opening;
mod picture;
mod place;
mod plain;
mod play;
mod scene;
mod script;
mod sectors;
mod step;
mod watched;

pub use exports::{ImageSizes, page_plain, page_play, page_sector};
