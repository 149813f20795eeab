//! Transfers that answer a request of one of this shard's runs. They have an effect only while the
//! request is pending.
//!
//! Rules: X2, X5.

ghost use Rattle.std.specs.Prelude.{◌≡◌, IfOk, None};
ghost use Rattle.service_model.specs.Deliveries.{effect, external_class};
ghost use Rattle.service_model_types.specs.declared.transfer.TransferContent.TheVariants as content;
ghost use Rattle.shard_store.specs.Fitting.{FitsStep};
ghost use Rattle.shard_store.specs.ShardView.{runs_at, state};
ghost use Rattle.shard_deliveries.specs.Accepting.{MayAccept};

use crate::accepts::{accept_event, accept_only};
use crate::events::{child_closed_event, external_event};
use crate::pending::pending_request;
use mutable_state_keeper::KeepsRun;
use service_model_types::transfer::{
    ChildClosed, ChildStartFailed, ChildStarted, ExternalDoneTransfer, ExternalKind, Transfer,
};
use shard_store::{Plan, Store};
use std::alloc::AllocError;
use wf_event::payloads::{ChildWorkflowExecutionStarted, StartChildWorkflowExecutionFailed};
use wf_event::{Attributes, Boxed, Class};
use wf_event_values::{Cause, Moment};

/// A child was started.
#[tactic(auto, unfolding(service_model::specs::Deliveries::effect))]
pub(crate) fn tell_child_started<T: KeepsRun>(
    store: &mut Store<T>,
    moment: Moment,
    transfer: &Transfer,
    child: &ChildStarted,
) -> Result<Plan<T>, AllocError>
    requires { MayAccept store.old transfer.now }
    ensures same { state store.new ≡ state store.old }
    ensures plan { IfOk result (λ plan. FitsStep store.new plan moment
        (effect (runs_at store.old moment) transfer.now (content.ChildStarted child.now))) }
{
    let run = child.parent_run;
    let Some(asked) = pending_request(store, run, Class::Child, child.initiated)? else {
        return Ok(accept_only(store, moment, transfer));
    };
    let index = asked.index;
    let started = ChildWorkflowExecutionStarted {
        initiated: child.initiated,
        workflow_id: asked.workflow_id,
        run: child.run,
    };
    let boxed = Boxed::new(store.alloc(), started)?;
    let event = Attributes::ChildWorkflowExecutionStarted(boxed);
    accept_event(store, moment, transfer, index, event, None)
}

/// A child was not started.
#[tactic(auto, unfolding(service_model::specs::Deliveries::effect))]
pub(crate) fn tell_child_start_failed<T: KeepsRun>(
    store: &mut Store<T>,
    moment: Moment,
    transfer: &Transfer,
    child: &ChildStartFailed,
) -> Result<Plan<T>, AllocError>
    requires { MayAccept store.old transfer.now }
    ensures same { state store.new ≡ state store.old }
    ensures plan { IfOk result (λ plan. FitsStep store.new plan moment
        (effect (runs_at store.old moment) transfer.now (content.ChildStartFailed child.now))) }
{
    let run = child.parent_run;
    let Some(asked) = pending_request(store, run, Class::Child, child.initiated)? else {
        return Ok(accept_only(store, moment, transfer));
    };
    let index = asked.index;
    let event = Attributes::StartChildWorkflowExecutionFailed(StartChildWorkflowExecutionFailed {
        initiated: child.initiated,
        workflow_id: asked.workflow_id,
        cause: Cause::WorkflowAlreadyExists,
    });
    accept_event(store, moment, transfer, index, event, None)
}

/// A child closed.
#[tactic(auto, unfolding(service_model::specs::Deliveries::effect))]
pub(crate) fn tell_child_closed<T: KeepsRun>(
    store: &mut Store<T>,
    moment: Moment,
    transfer: &Transfer,
    child: &ChildClosed,
) -> Result<Plan<T>, AllocError>
    requires { MayAccept store.old transfer.now }
    ensures same { state store.new ≡ state store.old }
    ensures plan { IfOk result (λ plan. FitsStep store.new plan moment
        (effect (runs_at store.old moment) transfer.now (content.ChildClosed child.now))) }
{
    let run = child.parent_run;
    let Some(asked) = pending_request(store, run, Class::Child, child.initiated)? else {
        return Ok(accept_only(store, moment, transfer));
    };
    let event = child_closed_event(store.alloc(), child)?;
    accept_event(store, moment, transfer, asked.index, event, None)
}

/// An external request was done, or failed.
#[tactic(auto, unfolding(service_model::specs::Deliveries::effect))]
pub(crate) fn tell_external_done<T: KeepsRun>(
    store: &mut Store<T>,
    moment: Moment,
    transfer: &Transfer,
    done: &ExternalDoneTransfer,
) -> Result<Plan<T>, AllocError>
    requires { MayAccept store.old transfer.now }
    ensures same { state store.new ≡ state store.old }
    ensures plan { IfOk result (λ plan. FitsStep store.new plan moment
        (effect (runs_at store.old moment) transfer.now (content.ExternalDone done.now))) }
{
    let class = external_class(done.kind);
    let Some(asked) = pending_request(store, done.to_run, class, done.initiated)? else {
        return Ok(accept_only(store, moment, transfer));
    };
    let index = asked.index;
    let event = external_event(done, asked.workflow_id);
    accept_event(store, moment, transfer, index, event, None)
}

/// The class of what an external request made pending.
fn external_class(kind: ExternalKind) -> Class
    ensures { result ≡ external_class kind }
{
    match kind {
        ExternalKind::Signal => Class::Signal,
        ExternalKind::Cancel => Class::Cancel,
    }
}
