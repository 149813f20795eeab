//! Timer turns, and calls of one step, whichever it is.

ghost use Rattle.service.specs.CallRequests.{to_turn_timers};
ghost use Rattle.service.specs.Contents.{shard_refusal};

use crate::calls::asked_by_client;
use crate::route::shard_route;
use crate::service::{Pass, Service};
use gate::Refused;
use service_model_types::answer::Reply;
use service_model_types::call::StepCall;
use service_model_types::request::{Operation, Request};
use shard_gate::ShardObject;
use std::alloc::AllocError;
use std::sync::Wait;
use wf_event_values::Moment;

impl<S: ShardObject> Service<S> {
    ghost use Rattle.service.specs.Services.{IsPassOf, IsServedStep, IsServedOnBy, IsTriedStep, IsTriedOn, settings_of};

    /// [`Service::timer_turn`] that never waits.
    ///
    /// # Errors
    /// As [`Service::try_serve`].
    pub fn try_timer_turn(
        &self,
        pass: &mut Pass<S>,
        shard: u16,
        at: Moment,
    ) -> Result<Reply, (Refused, Request)>
        requires { IsPassOf pass.old self.now }
        ensures { IsTriedOn self.now pass.old pass.new
            (shard_refusal (settings_of self.now) shard) shard
            (to_turn_timers at) result }
    {
        let route = shard_route(&self.settings, shard);
        let turn = asked_by_client(at, Operation::TimerTurn);
        self.try_serve_on(pass, route, turn)
    }

    /// Lets the first deadline of a shard fire, if it is due at that moment, else answers `NothingDue`.
    /// The order of deadlines is by due moment, then by run, class and event (ours). A shard that is
    /// not there is an invalid argument `shard`. It may wait for ever.
    ///
    /// # Errors
    /// As [`Service::serve`].
    pub fn timer_turn<R: Wait>(
        &self,
        rt: &R,
        pass: &mut Pass<S>,
        shard: u16,
        at: Moment,
    ) -> Result<Reply, (AllocError, Request)>
        requires { IsPassOf pass.old self.now }
        ensures { IsServedOnBy self.now pass.old pass.new
            (shard_refusal (settings_of self.now) shard) shard
            (to_turn_timers at) result }
    {
        let route = shard_route(&self.settings, shard);
        let turn = asked_by_client(at, Operation::TimerTurn);
        self.serve_on(rt, pass, route, turn)
    }

    /// [`Service::serve_step`] that never waits.
    ///
    /// # Errors
    /// As [`Service::try_serve`], with the request of the step that the call makes.
    pub fn try_serve_step(
        &self,
        pass: &mut Pass<S>,
        call: StepCall,
    ) -> Result<Reply, (Refused, Request)>
        requires { IsPassOf pass.old self.now }
        ensures { IsTriedStep self.now pass.old pass.new call result }
    {
        let route = self.route_of_step(&call);
        self.try_serve_on(pass, route, call.into_client())
    }

    /// Serves a call of one step, whichever it is. It may wait for ever.
    ///
    /// # Errors
    /// As [`Service::serve`], with the request of the step that the call makes.
    pub fn serve_step<R: Wait>(
        &self,
        rt: &R,
        pass: &mut Pass<S>,
        call: StepCall,
    ) -> Result<Reply, (AllocError, Request)>
        requires { IsPassOf pass.old self.now }
        ensures { IsServedStep self.now pass.old pass.new call result }
    {
        let route = self.route_of_step(&call);
        self.serve_on(rt, pass, route, call.into_client())
    }
}
