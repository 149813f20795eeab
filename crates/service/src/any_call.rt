//! A call of any kind.

ghost use Rattle.std.specs.Prelude.{◌≡◌, IfOk, OnErr};
ghost use Rattle.gate.specs.Passes.{number};
ghost use Rattle.service_model_types.specs.declared.call.Call.TheVariants as a_call;
ghost use Rattle.service.specs.Calls.{CallKept, CallServed, reply_of_poll};

use crate::service::{Pass, Service};
use service_model_types::answer::{Answer, Reply};
use service_model_types::call::{Call, Poll, StepCall};
use shard_gate::ShardObject;
use std::alloc::AllocError;
use std::sync::Wait;

impl<S: ShardObject> Service<S> {
    ghost use Rattle.service.specs.Services.{IsPassOf, known_by};

    /// Serves a call of any kind: a step as [`Service::serve_step`] does, a poll as
    /// [`Service::poll_workflow_task`] or [`Service::poll_activity_task`], a dispatch turn as
    /// [`Service::dispatch_turn`], a transfer turn as [`Service::transfer_turn`]. A poll that finds no
    /// hint is answered `Empty`. It may wait for ever.
    ///
    /// # Errors
    /// Where a growth was refused. A step has done nothing then, a poll has popped a hint and made no
    /// step, and a turn keeps the parts that were done. The call by its own name hands back what it was
    /// given or popped.
    pub fn serve_call<R: Wait>(
        &self,
        rt: &R,
        pass: &mut Pass<S>,
        call: Call,
    ) -> Result<Reply, AllocError>
        requires { IsPassOf pass.old self.now }
        ensures own { IsPassOf pass.new self.now }
        ensures named { number (known_by pass.new) ≡ number (known_by pass.old) }
        ensures ok { IfOk result (λ r. CallServed self.now pass.old pass.new call r) }
        ensures err { OnErr result (CallKept self.now pass.old pass.new call) }
    {
        match call {
            Call::Step(step) => self.step_replied(rt, pass, step),
            Call::Poll(poll) => self.poll_replied(rt, pass, poll),
            Call::DispatchTurn(turn) => {
                self.dispatch_turn(rt, pass, turn.shard, turn.stop, turn.at)
            }
            Call::TransferTurn(turn) => {
                self.transfer_turn(rt, pass, turn.from, turn.to, turn.stop, turn.at)
            }
        }
    }

    fn step_replied<R: Wait>(
        &self,
        rt: &R,
        pass: &mut Pass<S>,
        step: StepCall,
    ) -> Result<Reply, AllocError>
        requires { IsPassOf pass.old self.now }
        ensures own { IsPassOf pass.new self.now }
        ensures named { number (known_by pass.new) ≡ number (known_by pass.old) }
        ensures ok { IfOk result (λ r. CallServed self.now pass.old pass.new (a_call.Step step) r) }
        ensures err { OnErr result (CallKept self.now pass.old pass.new (a_call.Step step)) }
    {
        match self.serve_step(rt, pass, step) {
            Ok(reply) => Ok(reply),
            Err((error, _request)) => Err(error),
        }
    }

    fn poll_replied<R: Wait>(
        &self,
        rt: &R,
        pass: &mut Pass<S>,
        poll: Poll,
    ) -> Result<Reply, AllocError>
        requires { IsPassOf pass.old self.now }
        ensures own { IsPassOf pass.new self.now }
        ensures named { number (known_by pass.new) ≡ number (known_by pass.old) }
        ensures ok { IfOk result (λ r. CallServed self.now pass.old pass.new (a_call.Poll poll) r) }
        ensures err { OnErr result (CallKept self.now pass.old pass.new (a_call.Poll poll)) }
    {
        match self.poll(rt, pass, &poll.task_queue, poll.kind, poll.at) {
            Ok(polled) => Ok(reply_of_poll(polled)),
            Err((error, _hint)) => Err(error),
        }
    }
}

/// The reply of a poll: where no hint waited, the task queue was empty.
fn reply_of_poll(polled: Option<Reply>) -> Reply
    ensures { result ≡ reply_of_poll polled }
{
    match polled {
        Some(reply) => reply,
        None => Ok(Answer::Empty),
    }
}
