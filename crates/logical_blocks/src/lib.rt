//! A block device as its host knows it, in definitions alone, in the order of `specs/Lib.antt`:
//! logical blocks and writes to them, the book of a life, and what may be found of it after a loss
//! of power.
#![tactic(auto)]
