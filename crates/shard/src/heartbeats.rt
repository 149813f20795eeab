//! Heartbeats of activities, and notes on their running attempts.
//!
//! Rules: A1, A2, A6.

ghost use Rattle.std.specs.Prelude.{◌≡◌, ◌∷◌, [], IfOk};
ghost use Rattle.service_model.specs.Activities.{heartbeat};
ghost use Rattle.service_model.specs.Outcome.{adds, noted};
ghost use Rattle.service_model.specs.RunState.{ActivityRow};
ghost use Rattle.shard_store.specs.Fitting.{FitsStep};
ghost use Rattle.mutable_state.specs.Steps.{MayEnd};
ghost use Rattle.shard.specs.Running.{HasAttempt};
ghost use Rattle.shard_store.specs.ShardView.{run_in, runs_at, state};

use crate::attempts::attempt_running;
use crate::more::add_facts;
use mutable_state_keeper::KeepsRun;
use service_model_types::answer::Answer;
use service_model_types::journal::Note;
use service_model_types::request::{ActivityText, TakenTask};
use shard_steps::note_facts;
use shard_store::{Plan, Store, refused};
use std::alloc::AllocError;
use wf_event_values::{Moment, Refusal};

/// A heartbeat of a running attempt, which keeps its details, and answers whether the activity
/// was asked to cancel.
#[tactic(auto, unfolding(service_model::specs::Activities::heartbeat))]
pub(crate) fn record_heartbeat<T: KeepsRun>(
    store: &mut Store<T>,
    moment: Moment,
    request: &ActivityText,
) -> Result<Plan<T>, AllocError>
    ensures same { state store.new ≡ state store.old }
    ensures plan { IfOk result (λ plan.
        FitsStep store.new plan moment (heartbeat (runs_at store.old moment) request.now)) }
{
    let Some(attempt) = attempt_running(store, request.task)? else {
        return Ok(refused(moment, Refusal::NotFound));
    };
    let note = Note::Beat(request.text.clone()?);
    let answer = Answer::Heartbeat(attempt.activity.notes.cancel_requested);
    let plan = note_attempt(store, moment, attempt.index, request.task, note, answer)?;
    Ok(plan)
}

/// A note on the activity whose running attempt a token names, in the run at a place.
pub(crate) fn note_attempt<T: KeepsRun>(
    store: &mut Store<T>,
    moment: Moment,
    index: usize,
    task: TakenTask,
    note: Note,
    answer: Answer,
) -> Result<Plan<T>, AllocError>
    requires attempt { (r : ActivityRow) × HasAttempt store.old task index r }
    requires may { MayEnd note task.event (run_in store.old index) }
    ensures same { state store.new ≡ state store.old }
    ensures plan { IfOk result (λ plan.
        FitsStep store.new plan moment (adds task.run (noted task.event note ∷ []) answer)) }
{
    let facts = note_facts(store.alloc(), task.event, note)?;
    let plan = add_facts(store, moment, index, facts, answer)?;
    Ok(plan)
}
