//! What a parent that closed does to its children, by their parent close policy (Temporal, Parent close
//! policy).
//!
//! Rules: X4.

ghost use Rattle.std.specs.Prelude.{◌≡◌, ◌<◌, IfOk, length, true};
ghost use Rattle.service_model.specs.Deliveries.{asked_before, close_by_policy, effect, is_child_of};
ghost use Rattle.service_model.specs.RunState.{is_open, parent_of, is_there};
ghost use Rattle.service_model_types.specs.declared.transfer.TransferContent.TheVariants as content;
ghost use Rattle.shard_store.specs.Fitting.{FitsStep};
ghost use Rattle.shard_store.specs.ShardView.{ordinal_of, run_in, runs_at, state};
ghost use Rattle.shard_deliveries.specs.Accepting.{MayAccept};

use crate::accepts::{accept_event, accept_facts, accept_only};
use crate::events::parent_reason;
use mutable_state_keeper::{KeepsRun, Run};
use service_model_types::transfer::{CloseChild, Transfer};
use shard_steps::terminated_facts;
use shard_store::{Plan, Store};
use std::alloc::AllocError;
use wf_event::Attributes;
use wf_event_values::{CancelSource, Moment, ParentClosePolicy, RunId};

/// The parent closed: its child is closed by the policy, where it is still that parent's.
#[tactic(auto, unfolding(service_model::specs::Deliveries::effect))]
pub(crate) fn close_child_by_policy<T: KeepsRun>(
    store: &mut Store<T>,
    moment: Moment,
    transfer: &Transfer,
    child: &CloseChild,
) -> Result<Plan<T>, AllocError>
    requires { MayAccept store.old transfer.now }
    ensures same { state store.new ≡ state store.old }
    ensures plan { IfOk result (λ plan. FitsStep store.new plan moment
        (effect (runs_at store.old moment) transfer.now (content.CloseChild child.now))) }
{
    let Some(index) = store.named_open(&child.workflow_id, None) else {
        return Ok(accept_only(store, moment, transfer));
    };
    if !is_child_of(store.run(index), child.parent_run, child.initiated) {
        return Ok(accept_only(store, moment, transfer));
    }
    match child.policy {
        ParentClosePolicy::Terminate => terminate_child(store, moment, transfer, index),
        ParentClosePolicy::RequestCancel => ask_child_to_cancel(store, moment, transfer, index),
        ParentClosePolicy::Abandon => Ok(accept_only(store, moment, transfer)),
    }
}

/// Whether the event of that id in a run asked for this run as its child.
fn is_child_of<T: KeepsRun>(run: &Run<T>, parent: RunId, initiated: u64) -> bool
    ensures { result ≡ is_child_of parent initiated (parent_of run.now.state) }
{
    match &run.started().parent {
        Some(own) => own.run == parent && own.event == initiated,
        None => false,
    }
}

/// The child is terminated.
fn terminate_child<T: KeepsRun>(
    store: &mut Store<T>,
    moment: Moment,
    transfer: &Transfer,
    index: usize,
) -> Result<Plan<T>, AllocError>
    requires accepts { MayAccept store.old transfer.now }
    requires there { index < length store.old.runs }
    requires begun { is_there (run_in store.old index) ≡ true }
    requires open { is_open (run_in store.old index) ≡ true }
    ensures same { state store.new ≡ state store.old }
    ensures plan { IfOk result (λ plan. FitsStep store.new plan moment
        (close_by_policy (runs_at store.old moment) transfer.now (ordinal_of index)
        ParentClosePolicy.Terminate)) }
{
    let reason = parent_reason(store.alloc())?;
    let facts = terminated_facts(store.alloc(), reason)?;
    accept_facts(store, moment, transfer, index, facts, None)
}

/// The child is asked to cancel, unless it was before.
fn ask_child_to_cancel<T: KeepsRun>(
    store: &mut Store<T>,
    moment: Moment,
    transfer: &Transfer,
    index: usize,
) -> Result<Plan<T>, AllocError>
    requires accepts { MayAccept store.old transfer.now }
    requires there { index < length store.old.runs }
    requires begun { is_there (run_in store.old index) ≡ true }
    requires open { is_open (run_in store.old index) ≡ true }
    ensures same { state store.new ≡ state store.old }
    ensures plan { IfOk result (λ plan. FitsStep store.new plan moment
        (close_by_policy (runs_at store.old moment) transfer.now (ordinal_of index)
        ParentClosePolicy.RequestCancel)) }
{
    if is_asked(store.run(index))? {
        return Ok(accept_only(store, moment, transfer));
    }
    let event = Attributes::WorkflowExecutionCancelRequested(CancelSource::Parent);
    accept_event(store, moment, transfer, index, event, None)
}

/// Whether a run was asked to cancel.
pub(crate) fn is_asked<T: KeepsRun>(run: &Run<T>) -> Result<bool, AllocError>
    ensures { IfOk result (λ asked. asked ≡ asked_before run.now.state) }
{
    Ok(run.cancel_request()?.is_some())
}
