//! The service and its passes, and the request that every call makes.

ghost use Rattle.std.specs.Prelude.{◌≡◌, ◌<◌, IfOk};

use crate::close::PassRoom;
use crate::route::Route;
use gate::Refused;
use matching::{Queues, QueuesPass};
use service_model_types::answer::Reply;
use service_model_types::client::ClientRequest;
use service_model_types::request::Request;
use service_model_types::settings::Settings;
use shard_gate::{ShardGate, ShardObject, ShardPass};
use std::alloc::AllocError;
use std::marker::Model;
use std::sync::{Mutex, Wait};

/// A workflow service, over shards that `S` keeps.
pub struct Service<S: ShardObject> {
    pub(crate) settings: Settings,
    pub(crate) gate: ShardGate<S>,
    pub(crate) queues: Queues,
    // Room for what `close` hands down, made by `open` so that closing can't fail. Threads can't share
    // a list of passes, so it lies behind a lock, which nobody takes.
    pub(crate) handed_down: Mutex<PassRoom<S>>,
    ghost some_pass: { 0 < settings.passes },
}

impl<S: ShardObject> Drop for Service<S> {
    fn drop(self) {
        let Service {
            settings: _,
            gate: _,
            queues: _,
            handed_down: _,
        } = self;
    }
}

impl<S: ShardObject> Model for Service<S> {
    ghost use Rattle.service.specs.ServiceViews.{Service};

    ghost Value = { Service };

    ghost view = { λ x. record { settings = x.settings; gate = x.gate; queues = x.queues } };
}

/// The right to call one service. It is one thread's at a time.
pub struct Pass<S: ShardObject> {
    pub(crate) inner: ShardPass<S>,
    pub(crate) hints: QueuesPass,
}

impl<S: ShardObject> Drop for Pass<S> {
    fn drop(self) {
        let Pass { inner: _, hints: _ } = self;
    }
}

impl<S: ShardObject> Model for Pass<S> {
    ghost use Rattle.service.specs.ServiceViews.{Pass};

    ghost Value = { Pass };

    ghost view = { λ p. record { inner = p.inner; hints = p.hints } };
}

impl<S: ShardObject> Pass<S> {
    /// The right to step on the shards, and the one to push and pop hints.
    pub(crate) fn into_parts(self) -> (ShardPass<S>, QueuesPass)
        ensures { result ≡ (self.inner, self.hints) }
    {
        let Pass { inner, hints } = self;
        (inner, hints)
    }
}

impl<S: ShardObject> Service<S> {
    ghost use Rattle.service.specs.Services.{IsPassOf, IsServedBy, IsTried, settings_of};
    ghost use Rattle.service.specs.Routes.{IsServedVia, IsTriedVia};

    /// The gate and the queues, and the room that closing needs.
    pub(crate) fn into_parts(self) -> (ShardGate<S>, Queues, Mutex<PassRoom<S>>)
        ensures gate { result.0 ≡ self.gate }
        ensures queues { result.1 ≡ self.queues }
        ensures some_pass { 0 < (settings_of self).passes }
    {
        let Service {
            settings: _,
            gate,
            queues,
            handed_down,
        } = self;
        (gate, queues, handed_down)
    }

    /// The settings with which the service was opened.
    pub fn settings(&self) -> &Settings
        ensures { result.now ≡ settings_of self.now }
    {
        &self.settings
    }

    /// Serves a request on its shard, that of its workflow ID or the one that it names, if no other
    /// pass is there. A request whose shard is not there, or that names none, whose task token names
    /// none, or that has more than 10,000 commands is answered by that refusal, and enters no shard.
    /// It never waits.
    ///
    /// # Errors
    /// With the request, and nothing seen or done: `Busy` where another pass was on that very shard,
    /// `NoMemory` where a growth was refused.
    pub fn try_serve(
        &self,
        pass: &mut Pass<S>,
        request: ClientRequest,
    ) -> Result<Reply, (Refused, Request)>
        requires { IsPassOf pass.old self.now }
        ensures { IsTried self.now pass.old pass.new request result }
    {
        let route = self.route(request.request());
        self.try_serve_on(pass, route, request)
    }

    /// Serves a request as `try_serve` does, trying again while another pass is there. It may wait
    /// for ever.
    ///
    /// # Errors
    /// With the request, where a growth was refused. Nothing is seen or done then.
    pub fn serve<R: Wait>(
        &self,
        rt: &R,
        pass: &mut Pass<S>,
        request: ClientRequest,
    ) -> Result<Reply, (AllocError, Request)>
        requires { IsPassOf pass.old self.now }
        ensures { IsServedBy self.now pass.old pass.new request result }
    {
        let route = self.route(request.request());
        self.serve_on(rt, pass, route, request)
    }

    /// Serves a request where it goes, if no other pass is there.
    pub(crate) fn try_serve_on(
        &self,
        pass: &mut Pass<S>,
        route: Route,
        request: ClientRequest,
    ) -> Result<Reply, (Refused, Request)>
        requires own { IsPassOf pass.old self.now }
        requires there { IfOk route (λ slot. slot < (settings_of self.now).shards) }
        ensures { IsTriedVia self.now pass.old pass.new route request result }
    {
        match route {
            Err(refusal) => Ok(Err(refusal)),
            Ok(slot) => self
                .gate
                .try_step(&mut pass.inner, slot, request.into_request()),
        }
    }

    /// Serves a request where it goes, trying again while another pass is there.
    pub(crate) fn serve_on<R: Wait>(
        &self,
        rt: &R,
        pass: &mut Pass<S>,
        route: Route,
        request: ClientRequest,
    ) -> Result<Reply, (AllocError, Request)>
        requires own { IsPassOf pass.old self.now }
        requires there { IfOk route (λ slot. slot < (settings_of self.now).shards) }
        ensures { IsServedVia self.now pass.old pass.new route request result }
    {
        match route {
            Err(refusal) => Ok(Err(refusal)),
            Ok(slot) => self
                .gate
                .step(rt, &mut pass.inner, slot, request.into_request()),
        }
    }
}
