//! One lane.

ghost use Rattle.std.specs.Prelude.{◌≡◌, ◌<◌, [], ◌∷◌, ◌++◌, map, slice_get, slice_range, Some, OnOk, OnErr, IfSome, vec_len};
ghost use Rattle.lanes.specs.declared.answer.Answer.{Answer};
ghost use Rattle.lanes.specs.Answers.{KeepsLines};
ghost use Rattle.lanes.specs.Calls.{counted_from};
ghost use Rattle.lanes.specs.Lanes.{IsBehind, Made, ServedOne, Worked, calls_of};

use crate::answer::Answer;
use crate::calls::{Calls, LineCall};
use crate::door::Door;
use crate::replies::Replies;
use crate::room::make_room;
use service::{Pass, ShardObject};
use std::alloc::{AllocError, Global};
use std::collections::VecDeque;
use std::sync::Wait;

/// A lane: its pass, the calls that it is to make, and the replies to those that it made.
///
/// The replies' lines are made in the lane's thread, and the replies dropped there.
#[derive(Drop)]
pub(crate) struct Lane<S: ShardObject> {
    pub(crate) pass: Pass<S>,
    asked: Calls,
    replies: Replies,
    /// How many of the replies were taken.
    taken: usize,
}

impl<S: ShardObject> Lane<S> {
    pub(crate) fn new(alloc: Global, pass: Pass<S>) -> Lane<S>
        ensures pass { result.pass ≡ pass }
        ensures asked { calls_of result ≡ [] }
    {
        Lane {
            pass,
            asked: Calls::new(alloc),
            replies: Replies::new(alloc),
            taken: 0,
        }
    }

    /// Its pass.
    pub(crate) fn into_pass(self) -> Pass<S>
        ensures { result ≡ self.pass }
    {
        let Lane {
            pass,
            asked: _,
            replies: _,
            taken: _,
        } = self;
        pass
    }

    /// One call more.
    pub(crate) fn ask(&mut self, call: LineCall) -> Result<(), AllocError>
        ensures pass { self.new.pass ≡ self.old.pass }
        ensures asked { OnOk result (calls_of self.new ≡ calls_of self.old ++ call ∷ []) }
    {
        self.asked.push(call)?;
        Ok(())
    }

    /// More calls, in a list of which another one takes the place. Their lines count from this number
    /// on.
    pub(crate) fn ask_all(
        &mut self,
        alloc: Global,
        first: u64,
        calls: &mut VecDeque<LineCall>,
    ) -> Result<(), AllocError>
        ensures pass { self.new.pass ≡ self.old.pass }
        ensures asked { OnOk result
            (calls_of self.new ≡ calls_of self.old ++ map (counted_from first) calls.old.items) }
    {
        self.asked.take_list(alloc, first, calls)?;
        Ok(())
    }

    /// The place of the first reply that wasn't taken yet; none where memory ran out at it.
    pub(crate) fn take(&mut self) -> Option<usize>
        ensures pass { self.new.pass ≡ self.old.pass }
        ensures asked { self.new.asked ≡ self.old.asked }
        ensures answered { self.new.replies ≡ self.old.replies }
        ensures first { IfSome result (λ at. IsBehind at self.old self.new) }
    {
        let at = self.taken;
        if at >= self.replies.answers.len() {
            return None;
        }
        self.taken = at + 1;
        Some(at)
    }

    /// What is kept of the reply at a place.
    pub(crate) fn answer(&self, at: usize) -> Answer
        requires { at < vec_len self.now.replies.answers }
        ensures { slice_get self.now.replies.answers.items at ≡ Some result }
    {
        self.replies.at(at)
    }

    /// The line of the reply at a place.
    pub(crate) fn line(&self, at: usize) -> &[u8]
        requires { at < vec_len self.now.replies.answers }
        ensures { (a : Answer) → slice_get self.now.replies.answers.items at ≡ Some a
            → result.now ≡ slice_range self.now.replies.text.items a.start a.end }
    {
        self.replies.line(at)
    }

    /// Makes the calls in their order, up to the first that memory runs out at. All replies that there
    /// were are gone.
    pub(crate) fn serve<R: Wait, D: Door<S>>(&mut self, rt: &R, alloc: Global, door: &D)
        requires { D.admits door.now self.old.pass }
        ensures own { D.admits door.now self.new.pass }
        ensures worked { Worked (D.serves door.now) self.old self.new }
    {
        make_room(alloc);
        self.replies.clear(alloc);
        self.taken = 0;
        let _ = self.serve_all(rt, alloc, door);
        self.asked.clear();
    }

    /// Makes the calls.
    fn serve_all<R: Wait, D: Door<S>>(
        &mut self,
        rt: &R,
        alloc: Global,
        door: &D,
    ) -> Result<(), AllocError>
        requires own { D.admits door.now self.old.pass }
        requires taken { self.old.taken ≡ 0 }
        requires answered { self.old.replies.answers.items ≡ [] }
        ensures own { D.admits door.now self.new.pass }
        ensures made { Made (D.serves door.now) self.old self.new }
    {
        while let Some(next) = self.asked.pop() {
            self.serve_one(rt, alloc, door, next)?;
        }
        Ok(())
    }

    /// Makes a call, and its reply's line under the number of the call's line.
    fn serve_one<R: Wait, D: Door<S>>(
        &mut self,
        rt: &R,
        alloc: Global,
        door: &D,
        next: LineCall,
    ) -> Result<(), AllocError>
        requires { D.admits door.now self.old.pass }
        ensures own { D.admits door.now self.new.pass }
        ensures asked { self.new.asked ≡ self.old.asked }
        ensures taken { self.new.taken ≡ self.old.taken }
        ensures served { OnOk result (ServedOne (D.serves door.now) next self.old self.new) }
        ensures kept { OnErr result (KeepsLines self.old.replies self.new.replies) }
    {
        let LineCall { line, call } = next;
        let reply = door.call(rt, &mut self.pass, call)?;
        self.replies.add(alloc, line, &reply)?;
        Ok(())
    }
}
