//! Signaling a workflow ID's open run, or starting one that is signaled.
//!
//! Rules: I5, I9, I10.

ghost use Rattle.std.specs.Prelude.{◌≡◌, ◌<◌, length, IfOk, None, Some, true};
ghost use Rattle.service_model.specs.Outcome.{latest_run, open_run};
ghost use Rattle.service_model.specs.RunState.{is_open, is_there};
ghost use Rattle.service_model.specs.Signals.{signal_with_start, signal_or_start};
ghost use Rattle.service_model.specs.Starts.{starts_new};
ghost use Rattle.shard_store.specs.ShardView.{ordinal_of, run_in, runs_at, state, states};
ghost use Rattle.shard_store.specs.Fitting.{FitsStep, IsFree};
ghost use Rattle.shard.specs.Deciding.{signaled_by, signaled_facts};

use crate::signals::add_signal;
use crate::starts::{begin_run, decision_by};
use mutable_state_keeper::KeepsRun;
use service_model_types::answer::Answer;
use service_model_types::decided::Decision;
use service_model_types::request::SignalWithStart;
use shard_steps::signaled_beginning;
use shard_store::{Plan, Store, answered, refused};
use std::alloc::AllocError;
use wf_event_values::{ConflictPolicy, Field, Moment, Refusal};

/// A signal, with a start where no run is open.
#[tactic(auto, unfolding(service_model::specs::Signals::signal_with_start))]
pub(crate) fn signal_with_start<T: KeepsRun>(
    store: &mut Store<T>,
    moment: Moment,
    request: &SignalWithStart,
) -> Result<Plan<T>, AllocError>
    ensures same { state store.new ≡ state store.old }
    ensures plan { IfOk result (λ plan. FitsStep store.new plan moment
        (signal_with_start (runs_at store.old moment) request.now)) }
{
    if !store.is_home_of(&request.workflow_id) {
        return Ok(refused(moment, Refusal::InvalidArgument(Field::WorkflowId)));
    }
    if !store.setup().knows_queue(&request.task_queue) {
        return Ok(refused(moment, Refusal::UnknownTaskQueue));
    }
    signal_or_start(store, moment, request)
}

/// By whether the workflow ID has an open run.
fn signal_or_start<T: KeepsRun>(
    store: &mut Store<T>,
    moment: Moment,
    request: &SignalWithStart,
) -> Result<Plan<T>, AllocError>
    ensures same { state store.new ≡ state store.old }
    ensures plan { IfOk result (λ plan. FitsStep store.new plan moment
        (signal_or_start (runs_at store.old moment) request.now
        (open_run (runs_at store.old moment) request.now.workflow_id None))) }
{
    match store.named_open(&request.workflow_id, None) {
        Some(index) => signal_open_run(store, moment, index, request),
        None => start_and_signal(store, moment, request),
    }
}

/// A signal of the open run at a place.
fn signal_open_run<T: KeepsRun>(
    store: &mut Store<T>,
    moment: Moment,
    index: usize,
    request: &SignalWithStart,
) -> Result<Plan<T>, AllocError>
    requires there { index < length store.old.runs }
    requires begun { is_there (run_in store.old index) ≡ true }
    requires open { is_open (run_in store.old index) ≡ true }
    ensures same { state store.new ≡ state store.old }
    ensures plan { IfOk result (λ plan. FitsStep store.new plan moment
        (signal_or_start (runs_at store.old moment) request.now (Some (ordinal_of index)))) }
{
    let run = store.run_id(index);
    add_signal(
        store,
        moment,
        index,
        &request.request_id,
        &request.name,
        &request.signal_input,
        Some(run),
    )
}

/// A start that is signaled, by the workflow ID's latest run, none being open.
fn start_and_signal<T: KeepsRun>(
    store: &mut Store<T>,
    moment: Moment,
    request: &SignalWithStart,
) -> Result<Plan<T>, AllocError>
    ensures same { state store.new ≡ state store.old }
    ensures plan { IfOk result (λ plan. FitsStep store.new plan moment
        (signaled_by (runs_at store.old moment) request.now
        (latest_run (states store.old.runs) request.now.workflow_id))) }
{
    match store.latest(&request.workflow_id) {
        Some(index) => start_and_signal_behind(store, moment, index, request),
        None => start_and_signal_where_free(store, moment, request),
    }
}

/// A start that is signaled, of a workflow ID whose latest run is at that place.
fn start_and_signal_behind<T: KeepsRun>(
    store: &mut Store<T>,
    moment: Moment,
    index: usize,
    request: &SignalWithStart,
) -> Result<Plan<T>, AllocError>
    requires there { index < length store.old.runs }
    requires begun { is_there (run_in store.old index) ≡ true }
    requires latest { latest_run (states store.old.runs) request.now.workflow_id
        ≡ Some (ordinal_of index) }
    ensures same { state store.new ≡ state store.old }
    ensures plan { IfOk result (λ plan. FitsStep store.new plan moment
        (signaled_by (runs_at store.old moment) request.now (Some (ordinal_of index)))) }
{
    let run = store.run_id(index);
    let given = &request.request_id;
    match decision_by(store, index, given, request.reuse, ConflictPolicy::Fail) {
        Decision::New => start_and_signal_where_free(store, moment, request),
        Decision::Same | Decision::Existing => Ok(answered(moment, Answer::Existing(run))),
        Decision::TerminateThenNew => unreachable!(),
        Decision::Refused => Ok(refused(moment, Refusal::AlreadyStarted(run))),
    }
}

/// The run of a start that is signaled, and that nothing stands in the way of.
fn start_and_signal_where_free<T: KeepsRun>(
    store: &mut Store<T>,
    moment: Moment,
    request: &SignalWithStart,
) -> Result<Plan<T>, AllocError>
    requires { IsFree (states store.old.runs) request.now.workflow_id }
    ensures same { state store.new ≡ state store.old }
    ensures plan { IfOk result (λ plan. FitsStep store.new plan moment
        (starts_new (runs_at store.old moment) None (signaled_facts moment request.now))) }
{
    let beginning = signaled_beginning(store.alloc(), moment, request)?;
    begin_run(store, moment, beginning)
}
