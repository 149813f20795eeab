//! Signals and requests to cancel from other workflows.
//!
//! Rules: R7, X5.

ghost use Rattle.std.specs.Prelude.{◌≡◌, ◌<◌, IfOk, Some, length, true, option_to_list};
ghost use Rattle.service_model.specs.Deliveries.{cancel_external, effect, external_done, signal_external};
ghost use Rattle.service_model.specs.RunState.{is_open, is_there};
ghost use Rattle.service_model_types.specs.declared.transfer.TransferContent.TheVariants as content;
ghost use Rattle.shard_store.specs.Fitting.{FitsStep};
ghost use Rattle.shard_store.specs.ShardView.{ordinal_of, run_in, runs_at, state};
ghost use Rattle.shard_deliveries.specs.Accepting.{MayAccept};

use crate::accepts::{accept_event, accept_with};
use crate::children::is_asked;
use mutable_state_keeper::KeepsRun;
use service_model_types::transfer::{
    CancelExternalTransfer, ExternalDoneTransfer, ExternalKind, Sent, SignalExternalTransfer,
    Transfer, TransferContent,
};
use shard_store::{Plan, Store};
use std::alloc::AllocError;
use wf_event::payloads::WorkflowExecutionSignaled;
use wf_event::{Attributes, Boxed};
use wf_event_values::{CancelSource, Moment, RunId};

/// A signal from another workflow.
#[tactic(auto, unfolding(service_model::specs::Deliveries::effect))]
pub(crate) fn deliver_signal<T: KeepsRun>(
    store: &mut Store<T>,
    moment: Moment,
    transfer: &Transfer,
    ask: &SignalExternalTransfer,
) -> Result<Plan<T>, AllocError>
    requires { MayAccept store.old transfer.now }
    ensures same { state store.new ≡ state store.old }
    ensures plan { IfOk result (λ plan. FitsStep store.new plan moment
        (effect (runs_at store.old moment) transfer.now (content.SignalExternal ask.now))) }
{
    match store.named_open(&ask.workflow_id, ask.run) {
        Some(index) => deliver_signal_to_run(store, moment, transfer, index, ask),
        None => {
            let answer = external_done(ask.from_run, ask.initiated, ExternalKind::Signal, false);
            accept_with(store, moment, transfer, answer)
        }
    }
}

/// A signal from another workflow to the open run at a place.
fn deliver_signal_to_run<T: KeepsRun>(
    store: &mut Store<T>,
    moment: Moment,
    transfer: &Transfer,
    index: usize,
    ask: &SignalExternalTransfer,
) -> Result<Plan<T>, AllocError>
    requires accepts { MayAccept store.old transfer.now }
    requires there { index < length store.old.runs }
    requires begun { is_there (run_in store.old index) ≡ true }
    requires open { is_open (run_in store.old index) ≡ true }
    ensures same { state store.new ≡ state store.old }
    ensures plan { IfOk result (λ plan. FitsStep store.new plan moment
        (signal_external (runs_at store.old moment) transfer.now ask.now
        (Some (ordinal_of index)))) }
{
    let answer = external_done(ask.from_run, ask.initiated, ExternalKind::Signal, true);
    let event = Attributes::WorkflowExecutionSignaled(WorkflowExecutionSignaled {
        name: ask.name.clone()?,
        input: ask.input.clone()?,
    });
    let boxed = Boxed::new(store.alloc(), answer)?;
    accept_event(store, moment, transfer, index, event, Some(boxed))
}

/// A request to cancel from another workflow.
#[tactic(auto, unfolding(service_model::specs::Deliveries::effect))]
pub(crate) fn deliver_cancel_request<T: KeepsRun>(
    store: &mut Store<T>,
    moment: Moment,
    transfer: &Transfer,
    request: &CancelExternalTransfer,
) -> Result<Plan<T>, AllocError>
    requires { MayAccept store.old transfer.now }
    ensures same { state store.new ≡ state store.old }
    ensures plan { IfOk result (λ plan. FitsStep store.new plan moment
        (effect (runs_at store.old moment) transfer.now (content.CancelExternal request.now))) }
{
    match store.named_open(&request.workflow_id, request.run) {
        Some(index) => deliver_cancel_request_to_run(store, moment, transfer, index, request),
        None => {
            let answer = external_done(
                request.from_run,
                request.initiated,
                ExternalKind::Cancel,
                false,
            );
            accept_with(store, moment, transfer, answer)
        }
    }
}

/// A request to cancel of the open run at a place. Where it was asked before, that counts as done.
fn deliver_cancel_request_to_run<T: KeepsRun>(
    store: &mut Store<T>,
    moment: Moment,
    transfer: &Transfer,
    index: usize,
    request: &CancelExternalTransfer,
) -> Result<Plan<T>, AllocError>
    requires accepts { MayAccept store.old transfer.now }
    requires there { index < length store.old.runs }
    requires begun { is_there (run_in store.old index) ≡ true }
    requires open { is_open (run_in store.old index) ≡ true }
    ensures same { state store.new ≡ state store.old }
    ensures plan { IfOk result (λ plan. FitsStep store.new plan moment
        (cancel_external (runs_at store.old moment) transfer.now request.now
        (Some (ordinal_of index)))) }
{
    let answer = external_done(
        request.from_run,
        request.initiated,
        ExternalKind::Cancel,
        true,
    );
    if is_asked(store.run(index))? {
        return accept_with(store, moment, transfer, answer);
    }
    let event = Attributes::WorkflowExecutionCancelRequested(CancelSource::External);
    let boxed = Boxed::new(store.alloc(), answer)?;
    accept_event(store, moment, transfer, index, event, Some(boxed))
}

/// The answer to an external request.
fn external_done(run: RunId, initiated: u64, kind: ExternalKind, done: bool) -> Sent
    ensures { option_to_list (Some result) ≡ external_done run initiated kind done }
{
    Sent {
        to: run.shard(),
        content: TransferContent::ExternalDone(ExternalDoneTransfer {
            to_run: run,
            initiated,
            kind,
            done,
        }),
    }
}
