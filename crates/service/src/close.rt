//! How a service is closed.

ghost use Rattle.std.specs.Prelude.{◌≡◌, ℕ, ◌*◌, ◌<◌, ◌≤◌, Some, length, map, slice_get, vec_capacity};
ghost use Rattle.gate.specs.AtClose.{IsEnd, HasDone};
ghost use Rattle.gate.specs.Passes.{number, tickets};
ghost use Rattle.gate.specs.Records.{Begins, replay};
ghost use Rattle.matching.specs.AtClose.{IsEnd as IsEndOfQueue};
ghost use Rattle.service.specs.ServiceViews.{Pass as PassView};

use crate::service::{Pass, Service};
use matching::QueuesPass;
use service_model_types::limits::MOST_PASSES;
use shard_gate::{Closed, KeepsShard, ShardGate, ShardObject, ShardPass};
use std::alloc::{AllocError, Global};

/// Room for all passes on the shards and at the queues.
#[derive(Drop)]
pub(crate) struct PassRoom<S: ShardObject> {
    passes: Vec<ShardPass<S>>,
    hints: Vec<QueuesPass>,
    ghost empty: { (length passes.items ≡ 0) × (length hints.items ≡ 0) },
    ghost wide: { (256 ≤ vec_capacity passes) × (256 ≤ vec_capacity hints) },
}

impl<S: ShardObject> PassRoom<S> {
    pub(crate) fn new(alloc: Global) -> Result<PassRoom<S>, AllocError> {
        let passes = Vec::with_capacity(alloc, MOST_PASSES as usize)?;
        let hints = Vec::with_capacity(alloc, MOST_PASSES as usize)?;
        Ok(PassRoom { passes, hints })
    }
}

/// The passes on the shards and at the queues, in the room for them.
fn handed_down<S: ShardObject>(
    passes: Vec<Pass<S>>,
    room: PassRoom<S>,
) -> (Vec<ShardPass<S>>, Vec<QueuesPass>)
    requires { length passes.items ≤ 256 }
    ensures inner { result.0.items ≡ map (λ (p : PassView). p.inner) passes.items }
    ensures hints { result.1.items ≡ map (λ (p : PassView). p.hints) passes.items }
{
    let PassRoom {
        passes: mut all,
        hints: mut all_hints,
    } = room;
    for pass in passes {
        let (inner, hints) = pass.into_parts();
        all.push_reserved(inner);
        all_hints.push_reserved(hints);
    }
    (all, all_hints)
}

/// The shards of a service whose task queues are closed, with the passes on them: no call reaches them
/// any more. A process that ends need not drop them.
#[derive(Drop)]
pub struct ShardsLeft<S: ShardObject> {
    gate: ShardGate<S>,
    passes: Vec<ShardPass<S>>,
}

impl<S: ShardObject> Service<S> {
    ghost use Rattle.service.specs.Services.{IsPassOf, known_by, settings_of};
    ghost use Rattle.service.specs.AtClose.{held_at, parts_at};

    /// Closes the task queues, and leaves the shards as they are. The passes are all that were given.
    /// Of each task queue there is one list of all hints that were pushed and one of all that were
    /// popped, in which those of each pass are its own, in order. It takes no memory.
    pub fn close_queues(self, passes: Vec<Pass<S>>) -> ShardsLeft<S>
        requires own { (k : ℕ) (p : PassView)
            → slice_get passes.items k ≡ Some p
            → IsPassOf p self }
        requires count { length passes.items ≡ (settings_of self).passes }
        requires all { (n : ℕ) → n < (settings_of self).passes
            → (k : ℕ) × (p : PassView) × (slice_get passes.items k ≡ Some p)
            × (number (known_by p) ≡ n) }
        ensures queues { (slot : ℕ) → slot < 2 * length (settings_of self).queues
            → IsEndOfQueue (held_at self slot) (settings_of self).passes
            (parts_at passes.items slot) }
    {
        let (gate, queues, room) = self.into_parts();
        let (passes, hints) = handed_down(passes, room.into_inner());
        queues.close(hints);
        ShardsLeft { gate, passes }
    }
}

impl<S: KeepsShard> Service<S> {
    ghost use Rattle.service.specs.Services.{IsPassOf, known_by, settings_of};
    ghost use Rattle.service.specs.AtClose.{base_of, held_at, parts_at, IsHistoryOf};

    /// Gives each shard, its record and its tickets, in the order of the shards. The passes are all
    /// that were given, so none is on a shard. By the tickets all steps since the opening stand in one
    /// list, in which what comes before each delivery issued its transfer, and what comes before each
    /// acknowledgement accepted it. Of each task queue there is one list of all hints that were
    /// pushed and one of all that were popped, in which those of each pass are its own, in order. It
    /// takes no memory.
    pub fn close(self, passes: Vec<Pass<S>>) -> Closed<S>
        requires own { (k : ℕ) (p : PassView)
            → slice_get passes.items k ≡ Some p
            → IsPassOf p self }
        requires count { length passes.items ≡ (settings_of self).passes }
        requires all { (n : ℕ) → n < (settings_of self).passes
            → (k : ℕ) × (p : PassView) × (slice_get passes.items k ≡ Some p)
            × (number (known_by p) ≡ n) }
        ensures count { length result.records.items ≡ (settings_of self).shards }
        ensures kept { length result.shards.items ≡ (settings_of self).shards }
        ensures shards { (k : ℕ) (shard : _) (log : _)
            → slice_get result.shards.items k ≡ Some shard
            → slice_get result.records.items k ≡ Some log
            → S.stands shard (replay S.after (S.opening shard) log) }
        ensures records { (k : ℕ) (log : _)
            → slice_get result.records.items k ≡ Some log
            → IsEnd (base_of self k) (settings_of self).passes log }
        ensures passes { (k : ℕ) (log : _) (j : ℕ) (p : PassView)
            → slice_get result.records.items k ≡ Some log
            → slice_get passes.items j ≡ Some p
            → HasDone (base_of self k) (known_by p) k log }
        ensures seen { (k : ℕ) (ts : _) (j : ℕ) (p : PassView)
            → slice_get result.tickets.items k ≡ Some ts
            → slice_get passes.items j ≡ Some p
            → Begins (tickets (known_by p) k) ts.items }
        ensures history { IsHistoryOf self result.records.items
            (map (λ t. t.items) result.tickets.items) }
        ensures queues { (slot : ℕ) → slot < 2 * length (settings_of self).queues
            → IsEndOfQueue (held_at self slot) (settings_of self).passes
            (parts_at passes.items slot) }
    {
        let (gate, queues, room) = self.into_parts();
        let (passes, hints) = handed_down(passes, room.into_inner());
        let closed = gate.close(passes);
        queues.close(hints);
        closed
    }
}
