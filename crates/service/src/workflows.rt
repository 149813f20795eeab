//! The calls that signal a run or start it, ask it to cancel, and terminate it: each makes the request
//! of its arguments and serves it.

ghost use Rattle.service_model_types.specs.declared.request.Operation.TheVariants as to;
ghost use Rattle.service.specs.CallRequests.{ask};

use crate::calls::asked_by_client;
use crate::service::{Pass, Service};
use gate::Refused;
use service_model_types::answer::Reply;
use service_model_types::request::{Operation, Request, RequestCancel, SignalWithStart, Terminate};
use shard_gate::ShardObject;
use std::alloc::AllocError;
use std::sync::Wait;
use wf_event::Boxed;
use wf_event_values::Moment;

impl<S: ShardObject> Service<S> {
    ghost use Rattle.service.specs.Services.{IsPassOf, IsServedBy, IsTried};

    /// [`Service::signal_with_start`] that never waits.
    ///
    /// # Errors
    /// As [`Service::try_serve`].
    pub fn try_signal_with_start(
        &self,
        pass: &mut Pass<S>,
        asked: Boxed<SignalWithStart>,
        at: Moment,
    ) -> Result<Reply, (Refused, Request)>
        requires { IsPassOf pass.old self.now }
        ensures { IsTried self.now pass.old pass.new (ask at (to.SignalWithStart asked)) result }
    {
        self.try_serve(pass, asked_by_client(at, Operation::SignalWithStart(asked)))
    }

    /// Signals the workflow ID's open run, or starts a run that is signaled, where the reuse policy
    /// allows it (Temporal, SignalWithStartWorkflowExecution). It may wait for ever.
    ///
    /// # Errors
    /// As [`Service::serve`].
    pub fn signal_with_start<R: Wait>(
        &self,
        rt: &R,
        pass: &mut Pass<S>,
        asked: Boxed<SignalWithStart>,
        at: Moment,
    ) -> Result<Reply, (AllocError, Request)>
        requires { IsPassOf pass.old self.now }
        ensures { IsServedBy self.now pass.old pass.new (ask at (to.SignalWithStart asked)) result }
    {
        self.serve(
            rt,
            pass,
            asked_by_client(at, Operation::SignalWithStart(asked)),
        )
    }

    /// [`Service::request_cancel`] that never waits.
    ///
    /// # Errors
    /// As [`Service::try_serve`].
    pub fn try_request_cancel(
        &self,
        pass: &mut Pass<S>,
        asked: RequestCancel,
        at: Moment,
    ) -> Result<Reply, (Refused, Request)>
        requires { IsPassOf pass.old self.now }
        ensures { IsTried self.now pass.old pass.new (ask at (to.RequestCancel asked)) result }
    {
        self.try_serve(pass, asked_by_client(at, Operation::RequestCancel(asked)))
    }

    /// Asks the workflow ID's open run, the named one or the latest, to cancel (Temporal,
    /// RequestCancelWorkflowExecution). It may wait for ever.
    ///
    /// # Errors
    /// As [`Service::serve`].
    pub fn request_cancel<R: Wait>(
        &self,
        rt: &R,
        pass: &mut Pass<S>,
        asked: RequestCancel,
        at: Moment,
    ) -> Result<Reply, (AllocError, Request)>
        requires { IsPassOf pass.old self.now }
        ensures { IsServedBy self.now pass.old pass.new (ask at (to.RequestCancel asked)) result }
    {
        self.serve(
            rt,
            pass,
            asked_by_client(at, Operation::RequestCancel(asked)),
        )
    }

    /// [`Service::terminate`] that never waits.
    ///
    /// # Errors
    /// As [`Service::try_serve`].
    pub fn try_terminate(
        &self,
        pass: &mut Pass<S>,
        asked: Terminate,
        at: Moment,
    ) -> Result<Reply, (Refused, Request)>
        requires { IsPassOf pass.old self.now }
        ensures { IsTried self.now pass.old pass.new (ask at (to.Terminate asked)) result }
    {
        self.try_serve(pass, asked_by_client(at, Operation::Terminate(asked)))
    }

    /// Terminates the workflow ID's open run, the named one or the latest (Temporal,
    /// TerminateWorkflowExecution). It may wait for ever.
    ///
    /// # Errors
    /// As [`Service::serve`].
    pub fn terminate<R: Wait>(
        &self,
        rt: &R,
        pass: &mut Pass<S>,
        asked: Terminate,
        at: Moment,
    ) -> Result<Reply, (AllocError, Request)>
        requires { IsPassOf pass.old self.now }
        ensures { IsServedBy self.now pass.old pass.new (ask at (to.Terminate asked)) result }
    {
        self.serve(rt, pass, asked_by_client(at, Operation::Terminate(asked)))
    }
}
