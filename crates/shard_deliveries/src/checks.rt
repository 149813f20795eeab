//! Whether a transfer may be delivered to a shard at all.
//!
//! Rules: X8.

ghost use Rattle.std.specs.Prelude.{◌≡◌, ◌==◌, ◌&&◌};
ghost use Rattle.service_model.specs.Deliveries.{comes_from, is_for_shard};

use mutable_state_keeper::KeepsRun;
use service_model_types::content::Setup;
use service_model_types::transfer::{Transfer, TransferContent};
use shard_store::Store;
use wf_event_values::RunId;

/// Whether the run that asks is one of this service and of the shard that sent it.
pub(crate) fn comes_from(setup: &Setup, transfer: &Transfer) -> bool
    ensures { result ≡ comes_from setup.now transfer.now transfer.now.content }
{
    match &transfer.content {
        TransferContent::StartChild(child) => is_run_of(setup, transfer.from, child.parent_run),
        TransferContent::SignalExternal(ask) => is_run_of(setup, transfer.from, ask.from_run),
        TransferContent::CancelExternal(ask) => is_run_of(setup, transfer.from, ask.from_run),
        _ => true,
    }
}

/// Whether a run is one of this service on that shard.
fn is_run_of(setup: &Setup, shard: u16, run: RunId) -> bool
    ensures { result ≡ (run.service == setup.now.service) && (run.shard == shard) }
{
    run.service() == setup.service && run.shard() == shard
}

/// Whether a transfer is for this shard, by its workflow ID or by the run that it answers.
pub(crate) fn is_for_shard<T: KeepsRun>(store: &Store<T>, content: &TransferContent) -> bool
    ensures { result ≡ is_for_shard store.now.setup content.now }
{
    match content {
        TransferContent::StartChild(child) => store.is_home_of(&child.workflow_id),
        TransferContent::CloseChild(child) => store.is_home_of(&child.workflow_id),
        TransferContent::SignalExternal(ask) => store.is_home_of(&ask.workflow_id),
        TransferContent::CancelExternal(ask) => store.is_home_of(&ask.workflow_id),
        _ => true,
    }
}
