//! What a channel answers.

ghost use Rattle.std.specs.Prelude.{◌≡◌, ◌<◌, ◌≤◌, ◌+◌, ◌++◌, ◌∷◌, [], vec_len, vec_capacity};

use crate::status::{Condition, Status};
use arrayvec::ArrayVec;
use s360_words::Csw;

/// What a channel answers to an event, with what the answer's line prints.
#[derive(Drop)]
pub enum Answer {
    /// To Start I/O at an address.
    Sio(u16, Condition<Status>),
    /// To Test I/O at an address.
    Tio(u16, Condition<Csw>),
    /// To Halt I/O at an address.
    Hio(u16, Condition<Status>),
    /// To Test Channel: 0, 1 or 2.
    Tch(Condition<()>),
    /// How many units were done.
    Step(u16),
    /// How many units were done until the program ended, or as many as were allowed.
    Run(u32),
    /// Whether the drive at an address had an arm in motion, which has arrived now.
    Arrive(u16, bool),
    /// The address that interrupted, if one did, and the channel status word that was stored.
    Interrupt(Option<(u16, Csw)>),
    /// The address, cylinder and head of a track that was written and could not be saved, if there was one.
    Reset(Option<(u16, u16, u16)>),
    /// Whether the bytes lay within storage, and were stored.
    Store(bool),
    /// Whether the block lies within storage, and has its key.
    Key(bool),
    /// The bytes from an address on, if they are in storage.
    Show(u32, Option<ArrayVec<u8, 32>>),
}

/// Puts one answer more behind a list of them, which has room for it.
pub fn push_answer(answers: &mut Vec<Answer>, answer: Answer)
    requires { vec_len answers.old < vec_capacity answers.old }
    ensures items { answers.new.items ≡ answers.old.items ++ answer ∷ [] }
    ensures len { vec_len answers.new ≡ vec_len answers.old + 1 }
    ensures capacity { vec_capacity answers.old ≤ vec_capacity answers.new }
{
    answers.push(answer).unwrap();
}
