// What a call answered, as numbers.
ghost use Rattle.std.specs.Prelude.{◌≤◌, length};

use crate::line::{MOST, Numbers};

/// The number and position that every reply begins with, its values, and what the call left in slices.
#[derive(Drop)]
pub struct Answer(Numbers);

impl Answer {
    pub fn of_reply(reply: &[i128]) -> Answer
        requires { length reply.now ≤ MOST }
    {
        let mut numbers = Numbers::new();
        numbers.try_extend_from_slice(reply).unwrap();
        Answer(numbers)
    }

    pub fn numbers(&self) -> &[i128] {
        self.0.as_slice()
    }

    /// Whether the call accepted what it was given: refusals are numbered from 1 on.
    pub fn is_accepted(&self) -> bool {
        self.numbers().first() == Some(&0)
    }

    /// One number more, where a line has room for it.
    pub fn push(&mut self, number: i128) -> Option<()> {
        self.0.try_push(number).ok()
    }
}
