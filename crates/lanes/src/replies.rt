//! The lines of replies, one after the other in one text.

ghost use Rattle.std.specs.Prelude.{◌≡◌, ℕ, ◌≤◌, Some, length, slice_get};
ghost use Rattle.lanes.specs.declared.answer.Answer.{Answer};

use crate::answer::Answer;
use service_model_types::answer::Reply;
use std::alloc::{AllocError, Global};
use std::mem;
use wire_replies::reply_text_in;

/// The most bytes of a text that are kept for the next one.
const MOST_KEPT: usize = 1_048_576;

/// The lines of replies. Their memory is used again for the next ones.
#[derive(Drop)]
pub(crate) struct Replies {
    text: Vec<u8>,
    pub(crate) answers: Vec<Answer>,
    /// Where the next line is made.
    room: String,
    ghost within: { (k : ℕ) (a : Answer) → slice_get answers.items k ≡ Some a
        → (a.start ≤ a.end) × (a.end ≤ length text.items) },
}

impl Replies {
    ghost use Rattle.std.specs.Prelude.{◌<◌, [], slice_range, vec_len, OnOk, OnErr};
    ghost use Rattle.lanes.specs.Answers.{KeepsLines, Wrote};

    pub(crate) fn new(alloc: Global) -> Replies
        ensures { result.answers.items ≡ [] }
    {
        Replies {
            text: Vec::new(alloc),
            answers: Vec::new(alloc),
            room: String::new(alloc),
        }
    }

    /// Removes all of them. A text that took much memory gives it back.
    pub(crate) fn clear(&mut self, alloc: Global)
        ensures { self.new.answers.items ≡ [] }
    {
        self.answers.clear();
        self.text.clear();
        if self.text.capacity() > MOST_KEPT {
            self.text = Vec::new(alloc);
        }
    }

    /// One reply more, to the line with this number.
    pub(crate) fn add(
        &mut self,
        alloc: Global,
        number: u64,
        reply: &Reply,
    ) -> Result<(), AllocError>
        ensures wrote { OnOk result (Wrote number reply.now self.old self.new) }
        ensures kept { OnErr result (KeepsLines self.old self.new) }
    {
        let room = mem::replace(&mut self.room, String::new(alloc));
        let line = reply_text_in(alloc, room, number, reply)?;
        let refused = reply.is_err();
        let start = self.text.len();
        self.text.extend_from_slice(line.as_bytes())?;
        let end = self.text.len();
        self.answers.push(Answer {
            start,
            end,
            refused,
        })?;
        if line.capacity() <= MOST_KEPT {
            self.room = line;
        }
        Ok(())
    }

    /// What is kept of the reply at a place.
    pub(crate) fn at(&self, at: usize) -> Answer
        requires { at < vec_len self.now.answers }
        ensures { slice_get self.now.answers.items at ≡ Some result }
    {
        self.answers[at]
    }

    /// Its line.
    pub(crate) fn line(&self, at: usize) -> &[u8]
        requires { at < vec_len self.now.answers }
        ensures { (a : Answer) → slice_get self.now.answers.items at ≡ Some a
            → result.now ≡ slice_range self.now.text.items a.start a.end }
    {
        let answer = self.answers[at];
        &self.text[answer.start..answer.end]
    }
}
