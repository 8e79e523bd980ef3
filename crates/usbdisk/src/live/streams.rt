//! Where lines are read, and where their answers go.

/// An input of lines, and the output for their answers.
#[derive(Drop)]
pub struct Streams<I, O> {
    pub input: I,
    pub out: O,
}
