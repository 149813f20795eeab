//! Asking a run to cancel, and terminating it.
//!
//! Rules: C1, C2, C3, C4, F4.

ghost use Rattle.std.specs.Prelude.{◌≡◌, ◌<◌, length, IfOk, Some, true};
ghost use Rattle.service_model.specs.Cancels.{request_cancel, cancel_open, cancel_again, terminate, terminate_at};
ghost use Rattle.service_model.specs.RunState.{is_open, is_there};
ghost use Rattle.shard_store.specs.ShardView.{ordinal_of, run_in, runs_at, state};
ghost use Rattle.shard_store.specs.Fitting.{FitsStep};

use crate::more::add_facts;
use mutable_state_keeper::KeepsRun;
use service_model_types::answer::Answer;
use service_model_types::journal::CancelRequest;
use service_model_types::request::{RequestCancel, Terminate};
use shard_steps::{cancel_facts, is_repeated, terminated_facts};
use shard_store::{Plan, Store, answered, refused};
use std::alloc::AllocError;
use wf_event_values::{Field, Moment, Refusal};

/// A request to cancel a workflow, or the run that it names.
#[tactic(auto, unfolding(service_model::specs::Cancels::request_cancel))]
pub(crate) fn request_cancel<T: KeepsRun>(
    store: &mut Store<T>,
    moment: Moment,
    request: &RequestCancel,
) -> Result<Plan<T>, AllocError>
    ensures same { state store.new ≡ state store.old }
    ensures plan { IfOk result (λ plan. FitsStep store.new plan moment
        (request_cancel (runs_at store.old moment) request.now)) }
{
    if !store.is_home_of(&request.workflow_id) {
        return Ok(refused(moment, Refusal::InvalidArgument(Field::WorkflowId)));
    }
    match store.named_open(&request.workflow_id, request.run) {
        Some(index) => request_cancel_of_run(store, moment, index, request),
        None => Ok(refused(moment, Refusal::NotFound)),
    }
}

/// A request to cancel the open run at a place.
fn request_cancel_of_run<T: KeepsRun>(
    store: &mut Store<T>,
    moment: Moment,
    index: usize,
    request: &RequestCancel,
) -> Result<Plan<T>, AllocError>
    requires there { index < length store.old.runs }
    requires begun { is_there (run_in store.old index) ≡ true }
    requires open { is_open (run_in store.old index) ≡ true }
    ensures same { state store.new ≡ state store.old }
    ensures plan { IfOk result (λ plan. FitsStep store.new plan moment
        (cancel_open (runs_at store.old moment) request.now (ordinal_of index)
        (run_in store.old index).cancel_request)) }
{
    let before = store.run(index).cancel_request()?;
    if let Some(before) = before {
        return Ok(request_cancel_again(store, moment, request, before));
    }
    let facts = cancel_facts(store.alloc(), store.run(index), &request.request_id)?;
    add_facts(store, moment, index, facts, Answer::CancelRequested)
}

/// A request to cancel a run that was asked before.
fn request_cancel_again<T: KeepsRun>(
    store: &Store<T>,
    moment: Moment,
    request: &RequestCancel,
    before: CancelRequest,
) -> Plan<T>
    ensures { FitsStep store.now result moment (cancel_again request.now before) }
{
    if is_repeated(&request.request_id, &before) {
        return answered(moment, Answer::Repeated);
    }
    refused(moment, Refusal::CancellationAlreadyRequested)
}

/// The termination of a workflow, or of the run that it names.
#[tactic(auto, unfolding(service_model::specs::Cancels::terminate))]
pub(crate) fn terminate_workflow<T: KeepsRun>(
    store: &mut Store<T>,
    moment: Moment,
    request: &Terminate,
) -> Result<Plan<T>, AllocError>
    ensures same { state store.new ≡ state store.old }
    ensures plan { IfOk result (λ plan. FitsStep store.new plan moment
        (terminate (runs_at store.old moment) request.now)) }
{
    if !store.is_home_of(&request.workflow_id) {
        return Ok(refused(moment, Refusal::InvalidArgument(Field::WorkflowId)));
    }
    match store.named_open(&request.workflow_id, request.run) {
        Some(index) => terminate_run(store, moment, index, request),
        None => Ok(refused(moment, Refusal::NotFound)),
    }
}

/// The termination of the open run at a place.
fn terminate_run<T: KeepsRun>(
    store: &mut Store<T>,
    moment: Moment,
    index: usize,
    request: &Terminate,
) -> Result<Plan<T>, AllocError>
    requires there { index < length store.old.runs }
    requires begun { is_there (run_in store.old index) ≡ true }
    requires open { is_open (run_in store.old index) ≡ true }
    ensures same { state store.new ≡ state store.old }
    ensures plan { IfOk result (λ plan. FitsStep store.new plan moment
        (terminate_at request.now (Some (ordinal_of index)))) }
{
    let reason = request.reason.clone()?;
    let facts = terminated_facts(store.alloc(), reason)?;
    add_facts(store, moment, index, facts, Answer::Terminated)
}
