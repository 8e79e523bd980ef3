//! What meets the premises of the laws.
ghost use Rattle.theorems.specs.Witnesses.{OpeningWitness, LogWitness};

use medium::Medium;

/// Does nothing: its contract says that what ships meets the premises of the laws. A log opens over
/// the image that a format makes or a recovery leaves, and the calls of a log do what the laws
/// suppose.
pub fn premise_laws<M: Medium>()
    ensures opening { OpeningWitness M.state M.follows }
    ensures log { LogWitness M.state M.follows }
{}
