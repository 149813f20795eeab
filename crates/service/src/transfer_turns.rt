//! Transfer turns: what a shard sent to another one is delivered there.

ghost use Rattle.std.specs.Prelude.{◌≡◌, ◌<◌, Some, None, MatchResult, IfOk, OnOk, OnErr};
ghost use Rattle.gate.specs.Passes.{Waited, number as number_of};
ghost use Rattle.service_model_types.specs.Replies.{transfer_of};
ghost use Rattle.service.specs.CallRequests.{to_acknowledge, to_deliver};
ghost use Rattle.shard_gate.specs.GateViews.{SeenGrounds};
ghost use Rattle.service.specs.TransferTurns.{Acknowledges, DeliveryKept, Delivers, TransferKept, TransferTurns, Transfers, goes_on};

use crate::calls::request;
use crate::route::ends_refusal;
use crate::service::{Pass, Service};
use service_model_types::answer::{Answer, Reply};
use service_model_types::call::{Stop, TransferTurn};
use service_model_types::request::{Acknowledge, Operation, Request};
use service_model_types::transfer::Transfer;
use shard_gate::ShardObject;
use std::alloc::AllocError;
use std::sync::Wait;
use wf_event::Boxed;
use wf_event_values::Moment;

impl<S: ShardObject> Service<S> {
    ghost use Rattle.service.specs.Services.{IsPassOf, IsServedAtLast, hints_by, known_by, settings_of};

    /// Reads the first transfer that a shard issued for another one and that is not acknowledged,
    /// delivers it there, and acknowledges it where it took effect, now or before; it may be told to
    /// end before. The reply is the delivery's, or `Taken` with the transfer's number where the turn
    /// ends before it; without a transfer it is `NoTransfer`. A shard that is not there is an invalid
    /// argument `from` or `to`, the first of them, and no step is made. Nothing is held between the
    /// parts: each is a step like any other. It may wait for ever.
    ///
    /// # Errors
    /// Where a growth was refused. The parts done before are kept, so the next turn delivers the same
    /// transfer again, and where that took effect it is answered `AlreadyDelivered`.
    pub fn transfer_turn<R: Wait>(
        &self,
        rt: &R,
        pass: &mut Pass<S>,
        from: u16,
        to: u16,
        stop: Stop,
        at: Moment,
    ) -> Result<Reply, AllocError>
        requires { IsPassOf pass.old self.now }
        ensures own { IsPassOf pass.new self.now }
        ensures named { number_of (known_by pass.new) ≡ number_of (known_by pass.old) }
        ensures hints { hints_by pass.new ≡ hints_by pass.old }
        ensures ok { IfOk result (λ r. TransferTurns self.now
            (record { from = from; to = to; stop = stop; at = at })
            (known_by pass.old) (known_by pass.new) r) }
        ensures err { OnErr result (TransferKept self.now
            (record { from = from; to = to; stop = stop; at = at })
            (known_by pass.old) (known_by pass.new)) }
    {
        if let Some(refusal) = ends_refusal(&self.settings, from, to) {
            return Ok(Err(refusal));
        }
        let turn = TransferTurn { from, to, stop, at };
        self.transfer(rt, pass, turn)
    }

    /// A transfer turn between shards that are there.
    fn transfer<R: Wait>(
        &self,
        rt: &R,
        pass: &mut Pass<S>,
        turn: TransferTurn,
    ) -> Result<Reply, AllocError>
        requires own { IsPassOf pass.old self.now }
        requires from { turn.from < (settings_of self.now).shards }
        requires to { turn.to < (settings_of self.now).shards }
        ensures own { IsPassOf pass.new self.now }
        ensures named { number_of (known_by pass.new) ≡ number_of (known_by pass.old) }
        ensures hints { hints_by pass.new ≡ hints_by pass.old }
        ensures ok { IfOk result (λ r.
            Transfers self.now turn (known_by pass.old) (known_by pass.new) r) }
        ensures err { OnErr result
            (TransferKept self.now turn (known_by pass.old) (known_by pass.new)) }
    {
        let asked = request(turn.at, Operation::NextTransfer(turn.to));
        let next = self.serve_there(rt, pass, turn.from, asked)?;
        let transfer = match transfer_in(next) {
            Ok(transfer) => transfer,
            Err(next) => return Ok(next),
        };
        if let Stop::AfterFirstPart = turn.stop {
            return Ok(Ok(Answer::Taken(transfer.get().number)));
        }
        self.deliver(rt, pass, turn, transfer)
    }

    /// The parts of a transfer turn after its first one.
    fn deliver<R: Wait>(
        &self,
        rt: &R,
        pass: &mut Pass<S>,
        turn: TransferTurn,
        transfer: Boxed<Transfer>,
    ) -> Result<Reply, AllocError>
        requires own { IsPassOf pass.old self.now }
        requires from { turn.from < (settings_of self.now).shards }
        requires to { turn.to < (settings_of self.now).shards }
        requires source { transfer.from ≡ turn.from }
        requires grounds { SeenGrounds (known_by pass.old) turn.to
            (to_deliver turn.at transfer) }
        ensures own { IsPassOf pass.new self.now }
        ensures named { number_of (known_by pass.new) ≡ number_of (known_by pass.old) }
        ensures hints { hints_by pass.new ≡ hints_by pass.old }
        ensures ok { IfOk result (λ r.
            Delivers self.now turn transfer (known_by pass.old) (known_by pass.new) r) }
        ensures err { OnErr result
            (DeliveryKept self.now turn transfer (known_by pass.old) (known_by pass.new)) }
    {
        let number = transfer.get().number;
        let asked = request(turn.at, Operation::Deliver(transfer));
        let reply = self.serve_there(rt, pass, turn.to, asked)?;
        if !goes_on(turn.stop, &reply) {
            return Ok(reply);
        }
        self.acknowledge(rt, pass, turn, number)?;
        Ok(reply)
    }

    /// Counts on a transfer turn's transfers.
    fn acknowledge<R: Wait>(
        &self,
        rt: &R,
        pass: &mut Pass<S>,
        turn: TransferTurn,
        number: u64,
    ) -> Result<(), AllocError>
        requires own { IsPassOf pass.old self.now }
        requires from { turn.from < (settings_of self.now).shards }
        requires grounds { SeenGrounds (known_by pass.old) turn.from
            (to_acknowledge turn.at turn.to number) }
        ensures own { IsPassOf pass.new self.now }
        ensures named { number_of (known_by pass.new) ≡ number_of (known_by pass.old) }
        ensures hints { hints_by pass.new ≡ hints_by pass.old }
        ensures ok { OnOk result
            (Acknowledges self.now turn number (known_by pass.old) (known_by pass.new)) }
        ensures err { OnErr result (Waited (known_by pass.old) (known_by pass.new) turn.from) }
    {
        let counted = Acknowledge {
            to: turn.to,
            number,
        };
        let asked = request(turn.at, Operation::Acknowledge(counted));
        let _reply = self.serve_there(rt, pass, turn.from, asked)?;
        Ok(())
    }

    /// Serves a request on a shard that is there.
    pub(crate) fn serve_there<R: Wait>(
        &self,
        rt: &R,
        pass: &mut Pass<S>,
        shard: u16,
        asked: Request,
    ) -> Result<Reply, AllocError>
        requires own { IsPassOf pass.old self.now }
        requires there { shard < (settings_of self.now).shards }
        requires grounds { SeenGrounds (known_by pass.old) shard asked }
        ensures own { IsPassOf pass.new self.now }
        ensures named { number_of (known_by pass.new) ≡ number_of (known_by pass.old) }
        ensures hints { hints_by pass.new ≡ hints_by pass.old }
        ensures ok { IfOk result (λ r.
            IsServedAtLast self.now (known_by pass.old) (known_by pass.new) shard asked r) }
        ensures err { OnErr result (Waited (known_by pass.old) (known_by pass.new) shard) }
    {
        match self
            .gate
            .step(rt, &mut pass.inner, usize::from(shard), asked)
        {
            Ok(reply) => Ok(reply),
            Err(_) => Err(AllocError),
        }
    }
}

/// Whether a turn goes on after the delivery.
fn goes_on(stop: Stop, reply: &Reply) -> bool
    ensures { result ≡ goes_on stop reply.now }
{
    match (stop, reply) {
        (Stop::AtEnd, Ok(answer)) => answer.is_delivered(),
        _ => false,
    }
}

/// The transfer that a reply has, or the reply where it has none.
fn transfer_in(reply: Reply) -> Result<Boxed<Transfer>, Reply>
    ensures { MatchResult result (λ t. transfer_of reply ≡ Some t)
        (λ r. (r ≡ reply) × (transfer_of reply ≡ None)) }
{
    match reply {
        Ok(answer) => match answer.into_transfer() {
            Ok(transfer) => Ok(transfer),
            Err(other) => Err(Ok(other)),
        },
        Err(refusal) => Err(Err(refusal)),
    }
}
