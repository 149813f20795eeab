//! Polls: a hint is popped from a task queue, and its task asked for.

ghost use Rattle.std.specs.Prelude.{◌≡◌, ◌<◌, IfOk, IfErr, OnErr};
ghost use Rattle.gate.specs.Passes.{Waited, number};
ghost use Rattle.wf_event_values.specs.declared.policies.TaskKind.{TaskKind};
ghost use Rattle.service.specs.CallRequests.{to_start_task};
ghost use Rattle.service.specs.Turns.{IsPolled, Polls, PollKept, place_of};

use crate::calls::request;
use crate::service::{Pass, Service};
use service_model_types::answer::Reply;
use service_model_types::request::{Hint, Operation};
use shard_gate::ShardObject;
use std::alloc::AllocError;
use std::sync::Wait;
use wf_event_values::{Id, Moment, TaskKind};

impl<S: ShardObject> Service<S> {
    ghost use Rattle.service.specs.Services.{IsPassOf, IsServedAtLast, hints_by, known_by, settings_of};

    /// Takes a workflow task of that task queue for a worker (Temporal, PollWorkflowTaskQueue): the
    /// first hint that was not taken is popped, and its task is answered, or `Stale` where it waits no
    /// more. `None` where the queue was empty at one moment of the call. A name that no queue has is
    /// `UnknownTaskQueue`. It may wait for ever.
    ///
    /// # Errors
    /// With the hint that was popped, where a growth was refused: the step was not made.
    pub fn poll_workflow_task<R: Wait>(
        &self,
        rt: &R,
        pass: &mut Pass<S>,
        queue: &Id,
        at: Moment,
    ) -> Result<Option<Reply>, (AllocError, Hint)>
        requires { IsPassOf pass.old self.now }
        ensures { IsPolled self.now pass.old pass.new queue.now TaskKind.Workflow at result }
    {
        self.poll(rt, pass, queue, TaskKind::Workflow, at)
    }

    /// Takes an activity's attempt of that task queue for a worker (Temporal, PollActivityTaskQueue),
    /// as [`Service::poll_workflow_task`] takes a workflow task. It may wait for ever.
    ///
    /// # Errors
    /// With the hint that was popped, where a growth was refused: the step was not made.
    pub fn poll_activity_task<R: Wait>(
        &self,
        rt: &R,
        pass: &mut Pass<S>,
        queue: &Id,
        at: Moment,
    ) -> Result<Option<Reply>, (AllocError, Hint)>
        requires { IsPassOf pass.old self.now }
        ensures { IsPolled self.now pass.old pass.new queue.now TaskKind.Activity at result }
    {
        self.poll(rt, pass, queue, TaskKind::Activity, at)
    }

    pub(crate) fn poll<R: Wait>(
        &self,
        rt: &R,
        pass: &mut Pass<S>,
        queue: &Id,
        kind: TaskKind,
        at: Moment,
    ) -> Result<Option<Reply>, (AllocError, Hint)>
        requires { IsPassOf pass.old self.now }
        ensures own { IsPassOf pass.new self.now }
        ensures named { number (known_by pass.new) ≡ number (known_by pass.old) }
        ensures ok { IfOk result (λ r. Polls
            self.now (place_of self.now queue.now) kind at
            (known_by pass.old) (known_by pass.new)
            (hints_by pass.old) (hints_by pass.new) r) }
        ensures err { IfErr result (λ e. PollKept
            (place_of self.now queue.now) kind
            (known_by pass.old) (known_by pass.new)
            (hints_by pass.old) (hints_by pass.new) e.1) }
    {
        let hint = match self.queues.pop_hint(rt, &mut pass.hints, queue, kind) {
            Err(refusal) => return Ok(Some(Err(refusal))),
            Ok(None) => return Ok(None),
            Ok(Some(hint)) => hint,
        };
        match self.start_taken(rt, pass, hint, at) {
            Ok(reply) => Ok(Some(reply)),
            Err(AllocError) => Err((AllocError, hint)),
        }
    }

    /// Asks for the task of a hint that names a shard.
    fn start_taken<R: Wait>(
        &self,
        rt: &R,
        pass: &mut Pass<S>,
        hint: Hint,
        at: Moment,
    ) -> Result<Reply, AllocError>
        requires own { IsPassOf pass.old self.now }
        requires shard { hint.shard < (settings_of self.now).shards }
        ensures own { IsPassOf pass.new self.now }
        ensures named { number (known_by pass.new) ≡ number (known_by pass.old) }
        ensures hints { hints_by pass.new ≡ hints_by pass.old }
        ensures ok { IfOk result (λ r. IsServedAtLast
            self.now (known_by pass.old) (known_by pass.new)
            hint.shard (to_start_task at hint) r) }
        ensures err { OnErr result (Waited (known_by pass.old) (known_by pass.new) hint.shard) }
    {
        let asked = request(at, Operation::StartTask(hint.task()));
        self.serve_there(rt, pass, hint.shard, asked)
    }
}
