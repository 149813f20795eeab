//! The calls on workflow tasks: each makes the request of its arguments and serves it on the shard
//! that its hint or its task token names.

ghost use Rattle.service_model_types.specs.declared.request.Operation.TheVariants as to;
ghost use Rattle.service.specs.CallRequests.{ask, to_start_task};
ghost use Rattle.service.specs.Contents.{shard_refusal};

use crate::calls::asked_by_client;
use crate::route::shard_route;
use crate::service::{Pass, Service};
use gate::Refused;
use service_model_types::answer::Reply;
use service_model_types::request::{
    CompleteWorkflowTask, FailWorkflowTask, Hint, Operation, Request,
};
use shard_gate::ShardObject;
use std::alloc::AllocError;
use std::sync::Wait;
use wf_event_values::Moment;

impl<S: ShardObject> Service<S> {
    ghost use Rattle.service.specs.Services.{IsPassOf, IsServedBy, IsServedOnBy, IsTried, IsTriedOn, settings_of};

    /// [`Service::start_task`] that never waits.
    ///
    /// # Errors
    /// As [`Service::try_serve`].
    pub fn try_start_task(
        &self,
        pass: &mut Pass<S>,
        hint: Hint,
        at: Moment,
    ) -> Result<Reply, (Refused, Request)>
        requires { IsPassOf pass.old self.now }
        ensures { IsTriedOn self.now pass.old pass.new
            (shard_refusal (settings_of self.now) hint.shard) hint.shard
            (to_start_task at hint) result }
    {
        let route = shard_route(&self.settings, hint.shard);
        let start = asked_by_client(at, Operation::StartTask(hint.task()));
        self.try_serve_on(pass, route, start)
    }

    /// Takes the task that a hint names for a worker, where it still waits to be taken, else answers
    /// `Stale`. A shard that is not there is an invalid argument `shard`. It may wait for ever.
    ///
    /// # Errors
    /// As [`Service::serve`].
    pub fn start_task<R: Wait>(
        &self,
        rt: &R,
        pass: &mut Pass<S>,
        hint: Hint,
        at: Moment,
    ) -> Result<Reply, (AllocError, Request)>
        requires { IsPassOf pass.old self.now }
        ensures { IsServedOnBy self.now pass.old pass.new
            (shard_refusal (settings_of self.now) hint.shard) hint.shard
            (to_start_task at hint) result }
    {
        let route = shard_route(&self.settings, hint.shard);
        let start = asked_by_client(at, Operation::StartTask(hint.task()));
        self.serve_on(rt, pass, route, start)
    }

    /// [`Service::complete_workflow_task`] that never waits.
    ///
    /// # Errors
    /// As [`Service::try_serve`].
    pub fn try_complete_workflow_task(
        &self,
        pass: &mut Pass<S>,
        asked: CompleteWorkflowTask,
        at: Moment,
    ) -> Result<Reply, (Refused, Request)>
        requires { IsPassOf pass.old self.now }
        ensures { IsTried self.now pass.old pass.new
            (ask at (to.CompleteWorkflowTask asked)) result }
    {
        self.try_serve(
            pass,
            asked_by_client(at, Operation::CompleteWorkflowTask(asked)),
        )
    }

    /// Completes a taken workflow task by commands (Temporal, RespondWorkflowTaskCompleted): all of
    /// them take effect, or the first faulty one fails the task. A shard that is not there, or a run,
    /// an event or an attempt 0, is an invalid token; then more than 10,000 commands are an invalid
    /// argument `commands` (ours). A task that isn't running at that attempt is not found.
    /// It may wait for ever.
    ///
    /// # Errors
    /// As [`Service::serve`].
    pub fn complete_workflow_task<R: Wait>(
        &self,
        rt: &R,
        pass: &mut Pass<S>,
        asked: CompleteWorkflowTask,
        at: Moment,
    ) -> Result<Reply, (AllocError, Request)>
        requires { IsPassOf pass.old self.now }
        ensures { IsServedBy self.now pass.old pass.new
            (ask at (to.CompleteWorkflowTask asked)) result }
    {
        self.serve(
            rt,
            pass,
            asked_by_client(at, Operation::CompleteWorkflowTask(asked)),
        )
    }

    /// [`Service::fail_workflow_task`] that never waits.
    ///
    /// # Errors
    /// As [`Service::try_serve`].
    pub fn try_fail_workflow_task(
        &self,
        pass: &mut Pass<S>,
        asked: FailWorkflowTask,
        at: Moment,
    ) -> Result<Reply, (Refused, Request)>
        requires { IsPassOf pass.old self.now }
        ensures { IsTried self.now pass.old pass.new (ask at (to.FailWorkflowTask asked)) result }
    {
        self.try_serve(
            pass,
            asked_by_client(at, Operation::FailWorkflowTask(asked)),
        )
    }

    /// Fails a taken workflow task (Temporal, RespondWorkflowTaskFailed). A shard that is not there,
    /// or a run, an event or an attempt 0, is an invalid token (ours). A task that isn't running at
    /// that attempt is not found. It may wait for ever.
    ///
    /// # Errors
    /// As [`Service::serve`].
    pub fn fail_workflow_task<R: Wait>(
        &self,
        rt: &R,
        pass: &mut Pass<S>,
        asked: FailWorkflowTask,
        at: Moment,
    ) -> Result<Reply, (AllocError, Request)>
        requires { IsPassOf pass.old self.now }
        ensures { IsServedBy self.now pass.old pass.new
            (ask at (to.FailWorkflowTask asked)) result }
    {
        self.serve(
            rt,
            pass,
            asked_by_client(at, Operation::FailWorkflowTask(asked)),
        )
    }
}
