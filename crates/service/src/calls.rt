//! The calls by name: each makes the request of its arguments and serves it.

ghost use Rattle.std.specs.Prelude.{◌≡◌, true};
ghost use Rattle.service_model_types.specs.Clients.{is_clients};
ghost use Rattle.service_model_types.specs.declared.request.Operation.TheVariants as to;
ghost use Rattle.service.specs.CallRequests.{ask};

use crate::service::{Pass, Service};
use gate::Refused;
use service_model_types::answer::Reply;
use service_model_types::client::ClientRequest;
use service_model_types::request::{Operation, Read, Request, Signal, Start};
use shard_gate::ShardObject;
use std::alloc::AllocError;
use std::sync::Wait;
use wf_event::Boxed;
use wf_event_values::Moment;

impl<S: ShardObject> Service<S> {
    ghost use Rattle.service.specs.Services.{IsPassOf, IsServedBy, IsTried};

    /// [`Service::start`] that never waits.
    ///
    /// # Errors
    /// As [`Service::try_serve`].
    pub fn try_start(
        &self,
        pass: &mut Pass<S>,
        asked: Boxed<Start>,
        at: Moment,
    ) -> Result<Reply, (Refused, Request)>
        requires { IsPassOf pass.old self.now }
        ensures { IsTried self.now pass.old pass.new (ask at (to.Start asked)) result }
    {
        self.try_serve(pass, asked_by_client(at, Operation::Start(asked)))
    }

    /// Starts a run of a workflow ID, where the policies allow it. It may wait for ever.
    ///
    /// # Errors
    /// As [`Service::serve`].
    pub fn start<R: Wait>(
        &self,
        rt: &R,
        pass: &mut Pass<S>,
        asked: Boxed<Start>,
        at: Moment,
    ) -> Result<Reply, (AllocError, Request)>
        requires { IsPassOf pass.old self.now }
        ensures { IsServedBy self.now pass.old pass.new (ask at (to.Start asked)) result }
    {
        self.serve(rt, pass, asked_by_client(at, Operation::Start(asked)))
    }

    /// [`Service::signal`] that never waits.
    ///
    /// # Errors
    /// As [`Service::try_serve`].
    pub fn try_signal(
        &self,
        pass: &mut Pass<S>,
        asked: Signal,
        at: Moment,
    ) -> Result<Reply, (Refused, Request)>
        requires { IsPassOf pass.old self.now }
        ensures { IsTried self.now pass.old pass.new (ask at (to.Signal asked)) result }
    {
        self.try_serve(pass, asked_by_client(at, Operation::Signal(asked)))
    }

    /// Signals the workflow ID's open run, the named one or the latest. It may wait for ever.
    ///
    /// # Errors
    /// As [`Service::serve`].
    pub fn signal<R: Wait>(
        &self,
        rt: &R,
        pass: &mut Pass<S>,
        asked: Signal,
        at: Moment,
    ) -> Result<Reply, (AllocError, Request)>
        requires { IsPassOf pass.old self.now }
        ensures { IsServedBy self.now pass.old pass.new (ask at (to.Signal asked)) result }
    {
        self.serve(rt, pass, asked_by_client(at, Operation::Signal(asked)))
    }

    /// [`Service::history`] that never waits.
    ///
    /// # Errors
    /// As [`Service::try_serve`].
    pub fn try_history(
        &self,
        pass: &mut Pass<S>,
        asked: Read,
        at: Moment,
    ) -> Result<Reply, (Refused, Request)>
        requires { IsPassOf pass.old self.now }
        ensures { IsTried self.now pass.old pass.new (ask at (to.History asked)) result }
    {
        self.try_serve(pass, asked_by_client(at, Operation::History(asked)))
    }

    /// Shows the history of the workflow ID's run, the named one or the latest. It may wait for ever.
    ///
    /// # Errors
    /// As [`Service::serve`].
    pub fn history<R: Wait>(
        &self,
        rt: &R,
        pass: &mut Pass<S>,
        asked: Read,
        at: Moment,
    ) -> Result<Reply, (AllocError, Request)>
        requires { IsPassOf pass.old self.now }
        ensures { IsServedBy self.now pass.old pass.new (ask at (to.History asked)) result }
    {
        self.serve(rt, pass, asked_by_client(at, Operation::History(asked)))
    }

    /// [`Service::describe`] that never waits.
    ///
    /// # Errors
    /// As [`Service::try_serve`].
    pub fn try_describe(
        &self,
        pass: &mut Pass<S>,
        asked: Read,
        at: Moment,
    ) -> Result<Reply, (Refused, Request)>
        requires { IsPassOf pass.old self.now }
        ensures { IsTried self.now pass.old pass.new (ask at (to.Describe asked)) result }
    {
        self.try_serve(pass, asked_by_client(at, Operation::Describe(asked)))
    }

    /// Describes the workflow ID's run, the named one or the latest (Temporal,
    /// DescribeWorkflowExecution): its status, and how much is pending, buffered and in its history.
    /// It may wait for ever.
    ///
    /// # Errors
    /// As [`Service::serve`].
    pub fn describe<R: Wait>(
        &self,
        rt: &R,
        pass: &mut Pass<S>,
        asked: Read,
        at: Moment,
    ) -> Result<Reply, (AllocError, Request)>
        requires { IsPassOf pass.old self.now }
        ensures { IsServedBy self.now pass.old pass.new (ask at (to.Describe asked)) result }
    {
        self.serve(rt, pass, asked_by_client(at, Operation::Describe(asked)))
    }
}

/// The request of an operation at a moment.
pub(crate) fn request(at: Moment, operation: Operation) -> Request
    ensures { result ≡ record { at = at; operation = operation } }
{
    Request { at, operation }
}

/// The request of what a client may ask.
pub(crate) fn asked_by_client(at: Moment, operation: Operation) -> ClientRequest
    requires { is_clients operation ≡ true }
    ensures { result ≡ record { at = at; operation = operation } }
{
    ClientRequest::new(Request { at, operation })
}
