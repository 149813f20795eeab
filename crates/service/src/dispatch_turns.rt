//! Dispatch turns: a task that a shard issued is handed to its queue.

ghost use Rattle.std.specs.Prelude.{◌≡◌, ◌<◌, Some, None, MatchResult, IfOk, IfErr, OnOk, OnErr};
ghost use Rattle.gate.specs.Passes.{Waited, number as number_of};
ghost use Rattle.service_model_types.specs.declared.answer.NumberedDispatch.{NumberedDispatch};
ghost use Rattle.service_model_types.specs.Replies.{dispatch_of};
ghost use Rattle.service.specs.CallRequests.{to_next_dispatch};
ghost use Rattle.service.specs.Turns.{AnsweredOn, Counts, TurnKept, Turns};

use crate::calls::asked_by_client;
use crate::route::shard_route;
use crate::service::{Pass, Service};
use service_model_types::answer::{Answer, NumberedDispatch, Reply};
use service_model_types::call::Stop;
use service_model_types::client::ClientRequest;
use service_model_types::request::Operation;
use shard_gate::ShardObject;
use std::alloc::AllocError;
use std::sync::Wait;
use wf_event_values::Moment;

impl<S: ShardObject> Service<S> {
    ghost use Rattle.service.specs.Services.{IsPassOf, hints_by, known_by, settings_of};

    /// Reads the first dispatch of a shard that is not counted, pushes its hint to its task queue, and
    /// counts it; it may be told to end before. It answers `Taken`, `Pushed` or `Dispatched` with the
    /// dispatch's number, by its last part; where the first part's reply has no dispatch, that one: as
    /// where a shard that is not there is an invalid argument `shard`. A full queue is `QueueFull`, and
    /// the dispatch is not counted then. It may wait for ever.
    ///
    /// # Errors
    /// Where a growth was refused. The parts done before are kept, so the next turn pushes the same
    /// hint again: whoever polls it second gets `Stale`.
    pub fn dispatch_turn<R: Wait>(
        &self,
        rt: &R,
        pass: &mut Pass<S>,
        shard: u16,
        stop: Stop,
        at: Moment,
    ) -> Result<Reply, AllocError>
        requires { IsPassOf pass.old self.now }
        ensures own { IsPassOf pass.new self.now }
        ensures named { number_of (known_by pass.new) ≡ number_of (known_by pass.old) }
        ensures ok { IfOk result (Turns
            self.now shard at stop
            (known_by pass.old) (known_by pass.new)
            (hints_by pass.old) (hints_by pass.new)) }
        ensures err { IfErr result (λ e. TurnKept
            self.now shard at (known_by pass.old) (known_by pass.new)
            (hints_by pass.old) (hints_by pass.new)) }
    {
        let reply = self.next_dispatch(rt, pass, shard, at)?;
        let taken = match dispatch_in(reply) {
            Ok(taken) => taken,
            Err(reply) => return Ok(reply),
        };
        let number = taken.number;
        if let Stop::AfterFirstPart = stop {
            return Ok(Ok(Answer::Taken(number)));
        }
        if let Err(refusal) = self.queues.push_hint(
            rt,
            &mut pass.hints,
            &taken.dispatch.queue,
            taken.dispatch.hint,
        ) {
            return Ok(Err(refusal));
        }
        if let Stop::AfterSecondPart = stop {
            return Ok(Ok(Answer::Pushed(number)));
        }
        self.count_dispatch(rt, pass, shard, number, at)?;
        Ok(Ok(Answer::Dispatched(number)))
    }

    /// Reads the next dispatch.
    fn next_dispatch<R: Wait>(
        &self,
        rt: &R,
        pass: &mut Pass<S>,
        shard: u16,
        at: Moment,
    ) -> Result<Reply, AllocError>
        requires { IsPassOf pass.old self.now }
        ensures own { IsPassOf pass.new self.now }
        ensures named { number_of (known_by pass.new) ≡ number_of (known_by pass.old) }
        ensures hints { hints_by pass.new ≡ hints_by pass.old }
        ensures ok { IfOk result (λ r. AnsweredOn
            self.now shard (known_by pass.old) (known_by pass.new)
            (to_next_dispatch at) r) }
        ensures shard { IfOk result (λ r.
            (d : NumberedDispatch) → dispatch_of r ≡ Some d
            → d.dispatch.hint.shard < (settings_of self.now).shards) }
        ensures err { OnErr result (Waited (known_by pass.old) (known_by pass.new) shard) }
    {
        let asked = asked_by_client(at, Operation::NextDispatch);
        self.serve_named(rt, pass, shard, asked)
    }

    /// Counts a dispatch.
    fn count_dispatch<R: Wait>(
        &self,
        rt: &R,
        pass: &mut Pass<S>,
        shard: u16,
        number: u64,
        at: Moment,
    ) -> Result<(), AllocError>
        requires { IsPassOf pass.old self.now }
        ensures own { IsPassOf pass.new self.now }
        ensures named { number_of (known_by pass.new) ≡ number_of (known_by pass.old) }
        ensures hints { hints_by pass.new ≡ hints_by pass.old }
        ensures ok { OnOk result
            (Counts self.now shard at number (known_by pass.old) (known_by pass.new)) }
        ensures err { OnErr result (Waited (known_by pass.old) (known_by pass.new) shard) }
    {
        let asked = asked_by_client(at, Operation::Dispatched(number));
        let _reply = self.serve_named(rt, pass, shard, asked)?;
        Ok(())
    }

    /// Serves a part of a turn on the shard that the turn names; where that is not there, the reply is an
    /// invalid argument `shard`.
    fn serve_named<R: Wait>(
        &self,
        rt: &R,
        pass: &mut Pass<S>,
        shard: u16,
        asked: ClientRequest,
    ) -> Result<Reply, AllocError>
        requires { IsPassOf pass.old self.now }
        ensures own { IsPassOf pass.new self.now }
        ensures named { number_of (known_by pass.new) ≡ number_of (known_by pass.old) }
        ensures hints { hints_by pass.new ≡ hints_by pass.old }
        ensures ok { IfOk result (λ r. AnsweredOn
            self.now shard (known_by pass.old) (known_by pass.new) asked r) }
        ensures err { OnErr result (Waited (known_by pass.old) (known_by pass.new) shard) }
    {
        let route = shard_route(&self.settings, shard);
        match self.serve_on(rt, pass, route, asked) {
            Ok(reply) => Ok(reply),
            Err(_) => Err(AllocError),
        }
    }
}

/// The dispatch that a reply has, or the reply where it has none.
fn dispatch_in(reply: Reply) -> Result<NumberedDispatch, Reply>
    ensures { MatchResult result (λ d. dispatch_of reply ≡ Some d)
        (λ r. (r ≡ reply) × (dispatch_of reply ≡ None)) }
{
    match reply {
        Ok(answer) => match answer.into_dispatch() {
            Ok(dispatch) => Ok(dispatch),
            Err(other) => Err(Ok(other)),
        },
        Err(refusal) => Err(Err(refusal)),
    }
}
