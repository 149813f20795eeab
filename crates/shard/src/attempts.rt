//! The running attempts that tokens name, and the ends of activities that workers report.
//!
//! Rules: A1, A5.

ghost use Rattle.std.specs.Prelude.{◌≡◌, ◌<◌, Some, length, true, option_map, IfOk, IfSome};
ghost use Rattle.service_model.specs.Activities.{cancel_activity, complete_activity, ends_activity, keep_running, running_attempt};
ghost use Rattle.service_model.specs.Outcome.{adds, run_at};
ghost use Rattle.service_model.specs.RunState.{is_open, is_there};
ghost use Rattle.service_model.specs.Tasks.{pending_row};
ghost use Rattle.mutable_state.specs.Activities.{row_said};
ghost use Rattle.shard.specs.Running.{HasAttempt, row_of};
ghost use Rattle.shard_store.specs.Fitting.{FitsStep};
ghost use Rattle.shard_store.specs.ShardView.{run_in, runs_at, runs_in, state};
ghost use Rattle.shard_steps.specs.Attempts.{ended_activity};

use crate::more::add_facts;
use mutable_state::Activity;
use mutable_state_keeper::KeepsRun;
use service_model_types::answer::Answer;
use service_model_types::request::{ActivityText, TakenTask};
use shard_steps::{ended_facts, is_running};
use shard_store::{Plan, Store, refused};
use std::alloc::AllocError;
use wf_event::Attributes;
use wf_event::payloads::{ActivityTaskCanceled, ActivityTaskCompleted};
use wf_event_values::{Field, Moment, Refusal};

/// The running attempt of an activity that a token names, in the run at a place.
#[derive(Drop)]
pub(crate) struct RunningAttempt {
    pub(crate) index: usize,
    pub(crate) activity: Activity,
}

/// An activity is completed.
#[tactic(auto, unfolding(service_model::specs::Activities::complete_activity))]
pub(crate) fn complete_activity<T: KeepsRun>(
    store: &mut Store<T>,
    moment: Moment,
    request: &ActivityText,
) -> Result<Plan<T>, AllocError>
    ensures same { state store.new ≡ state store.old }
    ensures plan { IfOk result (λ plan.
        FitsStep store.new plan moment (complete_activity (runs_at store.old moment) request.now)) }
{
    let Some(attempt) = attempt_running(store, request.task)? else {
        return Ok(refused(moment, Refusal::NotFound));
    };
    let last = Attributes::ActivityTaskCompleted(ActivityTaskCompleted {
        scheduled: request.task.event,
        result_text: request.text.clone()?,
    });
    let answer = Answer::ActivityCompleted;
    let plan = end_activity(store, moment, request.task, &attempt, last, answer)?;
    Ok(plan)
}

/// An activity that was asked to cancel is canceled.
#[tactic(auto, unfolding(service_model::specs::Activities::cancel_activity))]
pub(crate) fn cancel_activity<T: KeepsRun>(
    store: &mut Store<T>,
    moment: Moment,
    request: &ActivityText,
) -> Result<Plan<T>, AllocError>
    ensures same { state store.new ≡ state store.old }
    ensures plan { IfOk result (λ plan.
        FitsStep store.new plan moment (cancel_activity (runs_at store.old moment) request.now)) }
{
    let Some(attempt) = attempt_running(store, request.task)? else {
        return Ok(refused(moment, Refusal::NotFound));
    };
    if !attempt.activity.notes.cancel_requested {
        return Ok(refused(moment, Refusal::InvalidArgument(Field::Token)));
    }
    let last = Attributes::ActivityTaskCanceled(ActivityTaskCanceled {
        scheduled: request.task.event,
        details: request.text.clone()?,
    });
    let answer = Answer::ActivityCanceled;
    let plan = end_activity(store, moment, request.task, &attempt, last, answer)?;
    Ok(plan)
}

/// The running attempt that a token names ends, and with it the activity, by this event.
pub(crate) fn end_activity<T: KeepsRun>(
    store: &mut Store<T>,
    moment: Moment,
    task: TakenTask,
    attempt: &RunningAttempt,
    last: Attributes,
    answer: Answer,
) -> Result<Plan<T>, AllocError>
    requires running { HasAttempt store.old task attempt.now.index (row_of attempt.now) }
    requires ends { ended_activity last ≡ Some task.event }
    ensures same { state store.new ≡ state store.old }
    ensures plan { IfOk result (λ plan. FitsStep store.new plan moment
        (adds task.run
        (ends_activity (run_at (runs_at store.old moment) task.run) (row_of attempt.now) last)
        answer)) }
{
    let run = store.run(attempt.index);
    let facts = ended_facts(store.alloc(), run, &attempt.activity, last)?;
    let plan = add_facts(store, moment, attempt.index, facts, answer)?;
    Ok(plan)
}

/// The running attempt that a token names, where there is one.
pub(crate) fn attempt_running<T: KeepsRun>(
    store: &Store<T>,
    task: TakenTask,
) -> Result<Option<RunningAttempt>, AllocError>
    ensures found { IfOk result (λ found.
        option_map row_of found ≡ running_attempt (runs_in store.now) task) }
    ensures running { IfOk result (λ found. IfSome found
        (λ attempt. HasAttempt store.now task attempt.index (row_of attempt))) }
{
    let Some(index) = store.place_on(task.shard, task.run) else {
        return Ok(None);
    };
    let Some(activity) = attempt_in(store, index, task)? else {
        return Ok(None);
    };
    Ok(Some(RunningAttempt { index, activity }))
}

/// Its activity, in the run at a place.
fn attempt_in<T: KeepsRun>(
    store: &Store<T>,
    index: usize,
    task: TakenTask,
) -> Result<Option<Activity>, AllocError>
    requires there { index < length store.now.runs }
    requires begun { is_there (run_in store.now index) ≡ true }
    ensures found { IfOk result (λ found. option_map row_said found
        ≡ keep_running task (pending_row (run_in store.now index) task.event)) }
    ensures open { IfOk result (λ found.
        IfSome found (λ activity. is_open (run_in store.now index) ≡ true)) }
{
    let Some(activity) = store
        .run(index)
        .pending_activity(store.alloc(), task.event)?
    else {
        return Ok(None);
    };
    if !is_running(&activity, task.attempt) {
        return Ok(None);
    }
    Ok(Some(activity))
}
