//! The requests of this shard's runs that wait for an answer.
//!
//! Rules: R7, X6.

ghost use Rattle.std.specs.Prelude.{◌≡◌, IfOk, IfSome, option_map};
ghost use Rattle.service_model.specs.Deliveries.{own_run, pending_id};
ghost use Rattle.shard_store.specs.ShardView.{runs_in};
ghost use Rattle.shard_deliveries.specs.Pending.{IsPending, said};

use mutable_state_keeper::KeepsRun;
use shard_store::Store;
use std::alloc::AllocError;
use wf_event::Class;
use wf_event_values::{Id, RunId};

/// A request that waits for an answer: in which run, and what workflow ID was asked.
#[derive(Drop)]
pub(crate) struct PendingRequest {
    pub(crate) index: usize,
    pub(crate) workflow_id: Id,
}

/// The request of a class that this event of a run made, while it is pending.
pub(crate) fn pending_request<T: KeepsRun>(
    store: &Store<T>,
    run: RunId,
    class: Class,
    initiated: u64,
) -> Result<Option<PendingRequest>, AllocError>
    ensures found { IfOk result (λ found. option_map said found
        ≡ pending_id (runs_in store.now) class initiated
        (own_run (runs_in store.now) run)) }
    ensures pending { IfOk result (λ found.
        IfSome found (λ p. IsPending store.now class initiated p.index)) }
{
    let Some(index) = store.own(run) else {
        return Ok(None);
    };
    match store.run(index).asked(store.alloc(), class, initiated)? {
        Some(workflow_id) => Ok(Some(PendingRequest { index, workflow_id })),
        None => Ok(None),
    }
}
