//! All task queues of a service, and what a thread calls them with.

ghost use Rattle.std.specs.Prelude.{◌≡◌, ℕ, ◌+◌, ◌*◌, ◌^◌, ◌<◌, ◌≤◌, Some, slice_get, slice_set, map, length, IfOk, IfSome, MatchOption, MatchResult};
ghost use Rattle.matching.specs.Named.{place_in, slot_of, at, StoodAt, StoodFullAt, PutAt, TakenAt, Pushes, Pops};
ghost use Rattle.matching.specs.PassSteps.{HadRoom};

use crate::queue::{HintPass, HintQueue};
use service_model_types::request::Hint;
use std::alloc::{AllocError, Global};
use std::sync::Wait;
use wf_event_values::{Id, Refusal, TaskKind};

/// Of each name a queue for hints of workflow tasks and one for hints of activities.
pub struct Queues {
    pub(crate) names: Vec<Id>,
    pub(crate) capacity: usize,
    pub(crate) passes: usize,
    pub(crate) shards: u16,
    // Those of the name at place k lie at 2 k and 2 k + 1.
    pub(crate) queues: Vec<HintQueue>,
}

impl Drop for Queues {
    fn drop(self) {
        let Queues {
            names: _,
            capacity: _,
            passes: _,
            shards: _,
            queues: _,
        } = self;
    }
}

/// The right to push and pop at all of them. It is one thread's at a time.
pub struct QueuesPass {
    pub(crate) passes: Vec<HintPass>,
}

impl Drop for QueuesPass {
    fn drop(self) {
        let QueuesPass { passes: _ } = self;
    }
}

impl QueuesPass {
    pub(crate) fn into_passes(self) -> Vec<HintPass>
        ensures { result ≡ self.passes }
    {
        let QueuesPass { passes } = self;
        passes
    }
}

impl Queues {
    ghost use Rattle.matching.specs.Named.{names_of, capacity_of, shards_of, known_by, IsPassOf};

    /// Puts a hint after all that was put into the queue of that name, of the hint's kind. It may
    /// wait for ever.
    ///
    /// # Errors
    /// `UnknownTaskQueue`; `QueueFull` where at one moment of the call as many hints waited in the
    /// queue as its capacity says, or more.
    pub fn push_hint<R: Wait>(
        &self,
        rt: &R,
        pass: &mut QueuesPass,
        queue: &Id,
        hint: Hint,
    ) -> Result<(), Refusal>
        requires own { IsPassOf pass.old self.now }
        requires shard { hint.shard < shards_of self.now }
        ensures own { IsPassOf pass.new self.now }
        ensures pushed { Pushes (place_in (names_of self.now) queue.now) (capacity_of self.now)
            (known_by pass.old) (known_by pass.new) hint result }
    {
        let Some(place) = place_of(&self.names, queue) else {
            return Err(Refusal::UnknownTaskQueue);
        };
        let slot = slot_of(place, hint.kind);
        match self.push_at(rt, pass, slot, hint) {
            Ok(()) => Ok(()),
            Err(_) => Err(Refusal::QueueFull),
        }
    }

    fn push_at<R: Wait>(
        &self,
        rt: &R,
        pass: &mut QueuesPass,
        slot: usize,
        hint: Hint,
    ) -> Result<(), Hint>
        requires own { IsPassOf pass.old self.now }
        requires slot { slot < length self.now.queues.items }
        requires shard { hint.shard < shards_of self.now }
        ensures own { IsPassOf pass.new self.now }
        ensures pushed { MatchResult result
            (λ _. PutAt (known_by pass.old) (known_by pass.new) slot hint
            × HadRoom (at (known_by pass.old) slot) (capacity_of self.now))
            (λ _. StoodFullAt (known_by pass.old) (known_by pass.new) slot (capacity_of self.now)) }
    {
        self.queues[slot].push(rt, &mut pass.passes[slot], self.capacity, hint)
    }

    /// Takes the first hint that was not taken from the queue of that name and kind, if there is one.
    /// It may wait for ever.
    ///
    /// # Errors
    /// `UnknownTaskQueue`.
    pub fn pop_hint<R: Wait>(
        &self,
        rt: &R,
        pass: &mut QueuesPass,
        queue: &Id,
        kind: TaskKind,
    ) -> Result<Option<Hint>, Refusal>
        requires { IsPassOf pass.old self.now }
        ensures own { IsPassOf pass.new self.now }
        ensures popped { Pops (place_in (names_of self.now) queue.now) kind
            (known_by pass.old) (known_by pass.new) result }
        ensures shard { IfOk result (λ found. IfSome found (λ h. h.shard < shards_of self.now)) }
    {
        let Some(place) = place_of(&self.names, queue) else {
            return Err(Refusal::UnknownTaskQueue);
        };
        let slot = slot_of(place, kind);
        Ok(self.pop_at(rt, pass, slot))
    }

    fn pop_at<R: Wait>(&self, rt: &R, pass: &mut QueuesPass, slot: usize) -> Option<Hint>
        requires own { IsPassOf pass.old self.now }
        requires slot { slot < length self.now.queues.items }
        ensures own { IsPassOf pass.new self.now }
        ensures popped { MatchOption result
            (StoodAt (known_by pass.old) (known_by pass.new) slot 0)
            (λ x. TakenAt (known_by pass.old) (known_by pass.new) slot x) }
        ensures shard { IfSome result (λ h. h.shard < shards_of self.now) }
    {
        self.queues[slot].pop(rt, &mut pass.passes[slot])
    }
}

/// The place of a name.
pub(crate) fn place_of(names: &Vec<Id>, queue: &Id) -> Option<usize>
    ensures { result ≡ place_in names.now.items queue.now }
{
    names.as_slice().iter().position(|known| known == queue)
}

/// The two queues of each name lie side by side.
pub(crate) fn slot_of(place: usize, kind: TaskKind) -> usize
    requires { place < 2 ^ 62 }
    ensures { result ≡ slot_of place kind }
{
    match kind {
        TaskKind::Workflow => 2 * place,
        TaskKind::Activity => 2 * place + 1,
    }
}
