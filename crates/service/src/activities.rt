//! The calls on running activities: each makes the request of its arguments and serves it on the
//! shard that its task token names.

ghost use Rattle.service_model_types.specs.declared.request.Operation.TheVariants as to;
ghost use Rattle.service.specs.CallRequests.{ask};

use crate::calls::asked_by_client;
use crate::service::{Pass, Service};
use gate::Refused;
use service_model_types::answer::Reply;
use service_model_types::request::{ActivityText, FailActivity, Operation, Request};
use shard_gate::ShardObject;
use std::alloc::AllocError;
use std::sync::Wait;
use wf_event_values::Moment;

impl<S: ShardObject> Service<S> {
    ghost use Rattle.service.specs.Services.{IsPassOf, IsServedBy, IsTried};

    /// [`Service::complete_activity`] that never waits.
    ///
    /// # Errors
    /// As [`Service::try_serve`].
    pub fn try_complete_activity(
        &self,
        pass: &mut Pass<S>,
        asked: ActivityText,
        at: Moment,
    ) -> Result<Reply, (Refused, Request)>
        requires { IsPassOf pass.old self.now }
        ensures { IsTried self.now pass.old pass.new (ask at (to.CompleteActivity asked)) result }
    {
        self.try_serve(
            pass,
            asked_by_client(at, Operation::CompleteActivity(asked)),
        )
    }

    /// Completes a running activity (Temporal, RespondActivityTaskCompleted), with a result text. A
    /// shard that is not there, or a run, an event or an attempt 0, is an invalid token (ours). An
    /// attempt that isn't running is not found. It may wait for ever.
    ///
    /// # Errors
    /// As [`Service::serve`].
    pub fn complete_activity<R: Wait>(
        &self,
        rt: &R,
        pass: &mut Pass<S>,
        asked: ActivityText,
        at: Moment,
    ) -> Result<Reply, (AllocError, Request)>
        requires { IsPassOf pass.old self.now }
        ensures { IsServedBy self.now pass.old pass.new
            (ask at (to.CompleteActivity asked)) result }
    {
        self.serve(
            rt,
            pass,
            asked_by_client(at, Operation::CompleteActivity(asked)),
        )
    }

    /// [`Service::fail_activity`] that never waits.
    ///
    /// # Errors
    /// As [`Service::try_serve`].
    pub fn try_fail_activity(
        &self,
        pass: &mut Pass<S>,
        asked: FailActivity,
        at: Moment,
    ) -> Result<Reply, (Refused, Request)>
        requires { IsPassOf pass.old self.now }
        ensures { IsTried self.now pass.old pass.new (ask at (to.FailActivity asked)) result }
    {
        self.try_serve(pass, asked_by_client(at, Operation::FailActivity(asked)))
    }

    /// Fails a running attempt of an activity (Temporal, RespondActivityTaskFailed): the activity
    /// is tried again by its retry policy, and the reply says when, or it has failed, and the reply
    /// says why. A shard that is not there, or a run, an event or an attempt 0, is an invalid token
    /// (ours). An attempt that isn't running is not found. It may wait for ever.
    ///
    /// # Errors
    /// As [`Service::serve`].
    pub fn fail_activity<R: Wait>(
        &self,
        rt: &R,
        pass: &mut Pass<S>,
        asked: FailActivity,
        at: Moment,
    ) -> Result<Reply, (AllocError, Request)>
        requires { IsPassOf pass.old self.now }
        ensures { IsServedBy self.now pass.old pass.new (ask at (to.FailActivity asked)) result }
    {
        self.serve(
            rt,
            pass,
            asked_by_client(at, Operation::FailActivity(asked)),
        )
    }

    /// [`Service::cancel_activity`] that never waits.
    ///
    /// # Errors
    /// As [`Service::try_serve`].
    pub fn try_cancel_activity(
        &self,
        pass: &mut Pass<S>,
        asked: ActivityText,
        at: Moment,
    ) -> Result<Reply, (Refused, Request)>
        requires { IsPassOf pass.old self.now }
        ensures { IsTried self.now pass.old pass.new (ask at (to.CancelActivity asked)) result }
    {
        self.try_serve(pass, asked_by_client(at, Operation::CancelActivity(asked)))
    }

    /// Cancels a running activity that was asked to cancel (Temporal, RespondActivityTaskCanceled),
    /// with details. A shard that is not there, or a run, an event or an attempt 0, is an invalid
    /// token (ours). An attempt that isn't running is not found; an activity that wasn't asked to
    /// cancel is an invalid argument `token` (ours). It may wait for ever.
    ///
    /// # Errors
    /// As [`Service::serve`].
    pub fn cancel_activity<R: Wait>(
        &self,
        rt: &R,
        pass: &mut Pass<S>,
        asked: ActivityText,
        at: Moment,
    ) -> Result<Reply, (AllocError, Request)>
        requires { IsPassOf pass.old self.now }
        ensures { IsServedBy self.now pass.old pass.new (ask at (to.CancelActivity asked)) result }
    {
        self.serve(
            rt,
            pass,
            asked_by_client(at, Operation::CancelActivity(asked)),
        )
    }

    /// [`Service::heartbeat`] that never waits.
    ///
    /// # Errors
    /// As [`Service::try_serve`].
    pub fn try_heartbeat(
        &self,
        pass: &mut Pass<S>,
        asked: ActivityText,
        at: Moment,
    ) -> Result<Reply, (Refused, Request)>
        requires { IsPassOf pass.old self.now }
        ensures { IsTried self.now pass.old pass.new (ask at (to.Heartbeat asked)) result }
    {
        self.try_serve(pass, asked_by_client(at, Operation::Heartbeat(asked)))
    }

    /// Reports that a running attempt goes on (Temporal, RecordActivityTaskHeartbeat), with details
    /// that the next attempt is given; the reply says whether the activity was asked to cancel. A
    /// shard that is not there, or a run, an event or an attempt 0, is an invalid token (ours). An
    /// attempt that isn't running is not found. It may wait for ever.
    ///
    /// # Errors
    /// As [`Service::serve`].
    pub fn heartbeat<R: Wait>(
        &self,
        rt: &R,
        pass: &mut Pass<S>,
        asked: ActivityText,
        at: Moment,
    ) -> Result<Reply, (AllocError, Request)>
        requires { IsPassOf pass.old self.now }
        ensures { IsServedBy self.now pass.old pass.new (ask at (to.Heartbeat asked)) result }
    {
        self.serve(rt, pass, asked_by_client(at, Operation::Heartbeat(asked)))
    }
}
