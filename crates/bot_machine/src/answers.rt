//! A list whose room is made before its first answer.
ghost use Rattle.std.specs.Prelude.{◌≡◌, ◌<◌, [], ◌∷◌, ◌++◌, length, IfSome};

use spec::Answer;
use std::alloc::Global;
use std::marker::Model;

/// The answers to events, in order, and room for more.
#[derive(Drop)]
pub struct Answers {
    list: Vec<Answer>,
}

impl Model for Answers {
    ghost use Rattle.std.specs.Prelude.{length, vec_capacity};
    ghost use Rattle.bot_machine.specs.Answers.{Room};

    ghost Value = { Room };

    ghost view = { λ a. record { list = a.list.items; room = vec_capacity a.list } };
}

impl Answers {
    /// No answers yet, with room for `room` of them; `None` for want of memory.
    pub fn with_room(alloc: Global, room: usize) -> Option<Answers>
        ensures { IfSome result (λ answers. answers ≡ record { list = []; room = room }) }
    {
        match Vec::with_capacity(alloc, room) {
            Ok(list) => Some(Answers { list }),
            Err(_) => None,
        }
    }

    /// The answers so far.
    pub fn list(&self) -> &[Answer]
        ensures { result.now ≡ self.now.list }
    {
        self.list.as_slice()
    }

    /// Appends an answer.
    pub(crate) fn push(&mut self, answer: Answer)
        requires { length self.old.list < self.old.room }
        ensures { self.new ≡ record self.old { list = self.old.list ++ answer ∷ [] } }
    {
        self.list.push_reserved(answer);
    }
}
