//! Signaling a run.
//!
//! Rules: H3.

ghost use Rattle.std.specs.Prelude.{◌≡◌, ◌<◌, length, IfOk, None, Some, true};
ghost use Rattle.std.specs.Option.{option_map_or};
ghost use Rattle.service_model_types.specs.declared.answer.Answer.TheVariants.{Repeated, RepeatedRun, Signaled, SignaledRun};
ghost use Rattle.service_model.specs.RunState.{is_open, is_there};
ghost use Rattle.service_model.specs.Signals.{signal, signal_at, signal_fact, signals};
ghost use Rattle.shard_store.specs.ShardView.{ordinal_of, run_in, runs_at, state};
ghost use Rattle.shard_store.specs.Fitting.{FitsStep};

use crate::more::add_facts;
use mutable_state_keeper::KeepsRun;
use service_model_types::answer::Answer;
use service_model_types::request::Signal;
use shard_steps::signal_facts;
use shard_store::{Plan, Store, answered, refused};
use std::alloc::AllocError;
use wf_event_values::{Field, Id, Moment, Refusal, RunId, Text};

/// The answer to the first signal of a request id, which names a run or none.
fn first_answer(named: Option<RunId>) -> Answer
    ensures { result ≡ option_map_or SignaledRun named Signaled }
{
    match named {
        Some(run) => Answer::SignaledRun(run),
        None => Answer::Signaled,
    }
}

/// The answer to a later one.
fn later_answer(named: Option<RunId>) -> Answer
    ensures { result ≡ option_map_or RepeatedRun named Repeated }
{
    match named {
        Some(run) => Answer::RepeatedRun(run),
        None => Answer::Repeated,
    }
}

/// A signal of a workflow, or of the run that it names.
#[tactic(auto, unfolding(service_model::specs::Signals::signal))]
pub(crate) fn signal_workflow<T: KeepsRun>(
    store: &mut Store<T>,
    moment: Moment,
    request: &Signal,
) -> Result<Plan<T>, AllocError>
    ensures same { state store.new ≡ state store.old }
    ensures plan { IfOk result (λ plan. FitsStep store.new plan moment
        (signal (runs_at store.old moment) request.now)) }
{
    if !store.is_home_of(&request.workflow_id) {
        return Ok(refused(moment, Refusal::InvalidArgument(Field::WorkflowId)));
    }
    match store.named_open(&request.workflow_id, request.run) {
        Some(index) => signal_named_run(store, moment, index, request),
        None => Ok(refused(moment, Refusal::NotFound)),
    }
}

/// A signal of the open run at a place, which the request names.
fn signal_named_run<T: KeepsRun>(
    store: &mut Store<T>,
    moment: Moment,
    index: usize,
    request: &Signal,
) -> Result<Plan<T>, AllocError>
    requires there { index < length store.old.runs }
    requires begun { is_there (run_in store.old index) ≡ true }
    requires open { is_open (run_in store.old index) ≡ true }
    ensures same { state store.new ≡ state store.old }
    ensures plan { IfOk result (λ plan. FitsStep store.new plan moment
        (signal_at (runs_at store.old moment) request.now (Some (ordinal_of index)))) }
{
    add_signal(
        store,
        moment,
        index,
        &request.request_id,
        &request.name,
        &request.input,
        None,
    )
}

/// A signal of the open run at a place. Its answer names the run that is given, if one is.
pub(crate) fn add_signal<T: KeepsRun>(
    store: &mut Store<T>,
    moment: Moment,
    index: usize,
    request_id: &Option<Id>,
    name: &Text,
    input: &Text,
    named: Option<RunId>,
) -> Result<Plan<T>, AllocError>
    requires there { index < length store.old.runs }
    requires begun { is_there (run_in store.old index) ≡ true }
    requires open { is_open (run_in store.old index) ≡ true }
    ensures same { state store.new ≡ state store.old }
    ensures plan { IfOk result (λ plan. FitsStep store.new plan moment
        (signals (runs_at store.old moment) (ordinal_of index) request_id.now
        (signal_fact request_id.now name.now input.now)
        (option_map_or SignaledRun named Signaled) (option_map_or RepeatedRun named Repeated))) }
{
    if store.run(index).was_signaled(request_id) {
        return Ok(answered(moment, later_answer(named)));
    }
    let facts = signal_facts(store.alloc(), store.run(index), request_id, name, input)?;
    add_facts(store, moment, index, facts, first_answer(named))
}
