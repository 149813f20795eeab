//! The gate over shards, and the steps on it.

ghost use Rattle.std.specs.Prelude.{◌≡◌, ℕ, ◌<◌, ◌≤◌, length, vec_capacity, IfOk, IfErr};
ghost use Rattle.service_model.specs.Growth.{KeepsHistories};
ghost use Rattle.service_model.specs.Service.{after, answer};
ghost use Rattle.gate.specs.Passes.{Agree, AgreeTickets, KeepsOwn, Refuses, Stamped, Stepped, SteppedAt, Waited, number, view as seen_by};

use crate::close::{Closed, GatePasses};
use crate::shard_object::ShardObject;
use gate::{Gate, Refused};
use service_model_types::answer::Reply;
use service_model_types::request::Request;
use std::alloc::AllocError;
use std::marker::Model;
use std::sync::{Mutex, Wait};

/// Shards that threads step on by their passes, each with its record.
pub struct ShardGate<S: ShardObject> {
    pub(crate) gate: Gate<S>,
    // Room for what `close` hands down and for what it answers, made by `open` so that closing
    // can't fail. Threads can't share a list of passes, so that one lies behind a lock, which
    // nobody takes.
    pub(crate) handed_down: Mutex<GatePasses<S>>,
    pub(crate) closed: Closed<S>,
    ghost few: { gate.board.shared.key.passes ≤ 256 },
    ghost empty: { (length closed.records.items ≡ 0)
        × (length closed.tickets.items ≡ 0) × (length closed.shards.items ≡ 0) },
    ghost roomy: { (gate.board.shared.table_id.slots ≤ vec_capacity closed.records)
        × (gate.board.shared.table_id.slots ≤ vec_capacity closed.tickets)
        × (gate.board.shared.table_id.slots ≤ vec_capacity closed.shards) },
}

impl<S: ShardObject> Drop for ShardGate<S> {
    fn drop(self) {
        let ShardGate {
            gate: _,
            handed_down: _,
            closed: _,
        } = self;
    }
}

impl<S: ShardObject> Model for ShardGate<S> {
    ghost use Rattle.gate.specs.GateViews.{given, opened};
    ghost use Rattle.gate.specs.RuleSteps.{origin_of};
    ghost use Rattle.shard_gate.specs.GateViews.{GateView};

    ghost Value = { GateView };

    ghost view = { λ x. record {
      table = x.gate.board.shared.table_id;
      origin = origin_of (λ y. S.opening y.0) (λ y. y.1) (opened x.gate) (given x.gate);
    } };
}

/// The right to step on the shards of one gate. It is one thread's at a time, and on no shard.
pub struct ShardPass<S: ShardObject> {
    pub(crate) inner: gate::Pass<S>,
}

impl<S: ShardObject> Drop for ShardPass<S> {
    fn drop(self) {
        let ShardPass { inner: _ } = self;
    }
}

impl<S: ShardObject> Model for ShardPass<S> {
    ghost use Rattle.gate.specs.Passes.{view as seen_by};
    ghost use Rattle.shard_gate.specs.GateViews.{PassView};

    ghost Value = { PassView };

    ghost view = { λ p. record { table = p.inner.seat.table_id; known = seen_by p.inner } };
}

impl<S: ShardObject> ShardPass<S> {
    pub(crate) fn into_inner(self) -> gate::Pass<S>
        ensures table { result.seat.table_id ≡ self.table }
        ensures known { seen_by result ≡ self.known }
    {
        let ShardPass { inner } = self;
        inner
    }
}

impl<S: ShardObject> ShardGate<S> {
    ghost use Rattle.gate.specs.GateViews.{opened, given as given_by};
    ghost use Rattle.gate.specs.RuleSteps.{origin_of};
    ghost use Rattle.shard_gate.specs.GateViews.{IsPassOf, SeenGrounds, slots};

    /// The gate, and the room that closing needs.
    pub(crate) fn into_parts(self) -> (Gate<S>, Mutex<GatePasses<S>>, Closed<S>)
        ensures table { result.0.board.shared.table_id ≡ self.table }
        ensures origin { origin_of
            (λ y. S.opening y.0) (λ y. y.1) (opened result.0) (given_by result.0)
            ≡ self.origin }
        ensures few { given_by result.0 ≤ 256 }
        ensures empty { (length result.2.records.items ≡ 0)
            × (length result.2.tickets.items ≡ 0) × (length result.2.shards.items ≡ 0) }
        ensures wide { (slots self ≤ vec_capacity result.2.records)
            × (slots self ≤ vec_capacity result.2.tickets)
            × (slots self ≤ vec_capacity result.2.shards) }
    {
        let ShardGate {
            gate,
            handed_down,
            closed,
        } = self;
        (gate, handed_down, closed)
    }

    /// Makes a step on a shard, if no other pass is there. It never waits.
    ///
    /// # Errors
    /// With the request, and nothing seen or done: `Busy` where another pass was on that very shard,
    /// which with one pass is never; `NoMemory` where the record or the shard couldn't grow.
    pub fn try_step(
        &self,
        pass: &mut ShardPass<S>,
        slot: usize,
        request: Request,
    ) -> Result<Reply, (Refused, Request)>
        requires own { IsPassOf pass.old self.now }
        requires slot { slot < slots self.now }
        requires grounds { SeenGrounds pass.old.known slot request }
        ensures own { IsPassOf pass.new self.now }
        ensures named { number pass.new.known ≡ number pass.old.known }
        ensures ticket { IfOk result (λ _. Stamped pass.old.known pass.new.known slot) }
        ensures ok { IfOk result (λ r. Stepped
            after answer KeepsHistories pass.old.known pass.new.known slot request r) }
        ensures back { IfErr result (λ e. e.1 ≡ request) }
        ensures err { IfErr result (λ e. Refuses e.0 pass.old.known pass.new.known slot) }
    {
        self.gate.try_step(&mut pass.inner, slot, request)
    }

    /// Makes a step on a shard, trying again while another pass is there. It may wait for ever.
    ///
    /// # Errors
    /// With the request, where the record or the shard couldn't grow. Nothing is seen or done then.
    pub fn step<R: Wait>(
        &self,
        rt: &R,
        pass: &mut ShardPass<S>,
        slot: usize,
        request: Request,
    ) -> Result<Reply, (AllocError, Request)>
        requires own { IsPassOf pass.old self.now }
        requires slot { slot < slots self.now }
        requires grounds { SeenGrounds pass.old.known slot request }
        ensures own { IsPassOf pass.new self.now }
        ensures named { number pass.new.known ≡ number pass.old.known }
        ensures ticket { IfOk result (λ _. Stamped pass.old.known pass.new.known slot) }
        ensures ok { IfOk result (λ r. SteppedAt
            after answer KeepsHistories pass.old.known pass.new.known slot request r) }
        ensures back { IfErr result (λ e. e.1 ≡ request) }
        ensures err { IfErr result (λ _. Waited pass.old.known pass.new.known slot) }
    {
        self.gate.step(rt, &mut pass.inner, slot, request)
    }

    /// Of each shard, one pass had seen a beginning of what the other had. Afterwards both have seen
    /// the longer. It takes no memory, and changes no shard.
    pub fn meet(&self, first: &mut ShardPass<S>, second: &mut ShardPass<S>)
        requires first { IsPassOf first.old self.now }
        requires second { IsPassOf second.old self.now }
        ensures first_own { IsPassOf first.new self.now }
        ensures second_own { IsPassOf second.new self.now }
        ensures agree { (s : ℕ) → s < slots self.now
            → Agree first.old.known second.old.known first.new.known second.new.known s }
        ensures tickets { (s : ℕ) → s < slots self.now
            → AgreeTickets first.old.known second.old.known first.new.known second.new.known s }
        ensures first { KeepsOwn first.old.known first.new.known }
        ensures second { KeepsOwn second.old.known second.new.known }
    {
        self.gate.meet(&mut first.inner, &mut second.inner);
    }
}
