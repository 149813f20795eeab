//! How the gate over shards is closed.

ghost use Rattle.std.specs.Prelude.{◌≡◌, ℕ, ◌<◌, ◌≤◌, [], Some, IfOk, length, map, slice_get, slice_index_or, vec_capacity};
ghost use Rattle.gate.specs.AtClose.{IsEnd, HasDone};
ghost use Rattle.gate.specs.Passes.{number, tickets, view as seen_by};
ghost use Rattle.gate.specs.Records.{Begins, Each, replay};
ghost use Rattle.shard_gate.specs.GateViews.{PassView};

use crate::shard_gate::{ShardGate, ShardPass};
use crate::shard_object::{KeepsShard, ShardObject};
use gate::{ClosedSlot, Gate};
use service_model_types::request::Request;
use std::alloc::{AllocError, Global};
use std::sync::Mutex;
use step_record::Record;

/// The most passes that a gate gives.
const MOST_PASSES: usize = 256;

/// Room for all passes of the gate.
#[derive(Drop)]
pub(crate) struct GatePasses<S: ShardObject> {
    passes: Vec<gate::Pass<S>>,
    ghost empty: { length passes.items ≡ 0 },
    ghost wide: { 256 ≤ vec_capacity passes },
}

impl<S: ShardObject> GatePasses<S> {
    pub(crate) fn new(alloc: Global) -> Result<GatePasses<S>, AllocError> {
        let passes = Vec::with_capacity(alloc, MOST_PASSES)?;
        Ok(GatePasses { passes })
    }
}

/// What there is when the gate of the shards is closed, each list in the order of the shards.
#[derive(Drop)]
pub struct Closed<S: ShardObject> {
    /// The record of each shard.
    pub records: Vec<Record<Request>>,
    /// Of each shard, the tickets of the steps that were made since the opening, in their order.
    pub tickets: Vec<Vec<u64>>,
    /// The shards themselves. To drop them takes as long as all that they keep is large, and a process
    /// that ends need not wait for it.
    pub shards: Vec<S>,
}

impl<S: ShardObject> Closed<S> {
    /// Room for so many shards.
    pub(crate) fn new(alloc: Global, shards: usize) -> Result<Closed<S>, AllocError>
        ensures empty { IfOk result (λ c. (length c.records.items ≡ 0)
            × (length c.tickets.items ≡ 0) × (length c.shards.items ≡ 0)) }
        ensures wide { IfOk result (λ c. (shards ≤ vec_capacity c.records)
            × (shards ≤ vec_capacity c.tickets) × (shards ≤ vec_capacity c.shards)) }
    {
        let records = Vec::with_capacity(alloc, shards)?;
        let tickets = Vec::with_capacity(alloc, shards)?;
        let shards = Vec::with_capacity(alloc, shards)?;
        Ok(Closed {
            records,
            tickets,
            shards,
        })
    }
}

/// The passes of the gate, in the room for them.
fn handed_down<S: ShardObject>(passes: Vec<ShardPass<S>>, room: GatePasses<S>) -> Vec<gate::Pass<S>>
    requires { length passes.items ≤ 256 }
    ensures tables { map (λ p. p.seat.table_id) result.items
        ≡ map (λ (p : PassView). p.table) passes.items }
    ensures known { map (λ p. seen_by p) result.items
        ≡ map (λ (p : PassView). p.known) passes.items }
{
    let GatePasses { passes: mut all } = room;
    for pass in passes {
        all.push_reserved(pass.into_inner());
    }
    all
}

/// The records, the tickets and the shards, in the room for them.
fn taken_out<S: ShardObject>(closed: Vec<ClosedSlot<S>>, room: Closed<S>) -> Closed<S>
    requires empty { (length room.records.items ≡ 0)
        × (length room.tickets.items ≡ 0) × (length room.shards.items ≡ 0) }
    requires wide { (length closed.items ≤ vec_capacity room.records)
        × (length closed.items ≤ vec_capacity room.tickets)
        × (length closed.items ≤ vec_capacity room.shards) }
    ensures records { result.records.items ≡ map (λ x. x.entries) closed.items }
    ensures tickets { result.tickets.items ≡ map (λ x. x.tickets) closed.items }
    ensures shards { result.shards.items ≡ map (λ x. x.object) closed.items }
{
    let Closed {
        mut records,
        tickets: mut all_tickets,
        mut shards,
    } = room;
    for slot in closed {
        let ClosedSlot {
            object,
            entries,
            tickets,
        } = slot;
        records.push_reserved(entries);
        all_tickets.push_reserved(tickets);
        shards.push_reserved(object);
    }
    Closed {
        records,
        tickets: all_tickets,
        shards,
    }
}

impl<S: KeepsShard> ShardGate<S> {
    ghost use Rattle.shard_gate.specs.GateViews.{IsHistoryOf, IsPassOf, base_of, given, slots};

    /// Gives each shard, its record and its tickets, in the order of the shards. The passes are all
    /// that were given, so none is on a shard. By the tickets all steps since the opening stand in one
    /// list, in which what comes before each step grounds it. It takes no memory.
    pub fn close(self, passes: Vec<ShardPass<S>>) -> Closed<S>
        requires own { (k : ℕ) (p : PassView)
            → slice_get passes.items k ≡ Some p → IsPassOf p self }
        requires count { length passes.items ≡ given self }
        requires all { (n : ℕ) → n < given self
            → (k : ℕ) × (p : PassView) × (slice_get passes.items k ≡ Some p)
            × (number p.known ≡ n) }
        ensures count { length result.records.items ≡ slots self }
        ensures kept { length result.shards.items ≡ slots self }
        ensures shards { (k : ℕ) (shard : _) (log : _)
            → slice_get result.shards.items k ≡ Some shard
            → slice_get result.records.items k ≡ Some log
            → S.stands shard (replay S.after (S.opening shard) log) }
        ensures records { Each result.records.items
            (λ k log. IsEnd (base_of self k) (given self) log) }
        ensures passes { (k : ℕ) (log : _) (j : ℕ) (p : PassView)
            → slice_get result.records.items k ≡ Some log
            → slice_get passes.items j ≡ Some p
            → HasDone (base_of self k) p.known k log }
        ensures seen { (k : ℕ) (ts : _) (j : ℕ) (p : PassView)
            → slice_get result.tickets.items k ≡ Some ts
            → slice_get passes.items j ≡ Some p
            → Begins (tickets p.known k) ts.items }
        ensures history { IsHistoryOf self
            (λ k. slice_index_or result.records.items k [])
            (λ k. slice_index_or (map (λ t. t.items) result.tickets.items) k []) }
    {
        let (gate, room, closing) = self.into_parts();
        let passes = handed_down(passes, room.into_inner());
        taken_out(gate.close(passes), closing)
    }
}
