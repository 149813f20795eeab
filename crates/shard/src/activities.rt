//! Taking the attempt of an activity.
//!
//! Rules: A2.

ghost use Rattle.std.specs.Prelude.{◌≡◌, ◌<◌, ◌∷◌, [], length, true, IfOk, IfSome};
ghost use Rattle.wf_event.specs.declared.role.Class.TheVariants.{Activity};
ghost use Rattle.wf_event_values.specs.declared.policies.TaskKind.TheVariants.{Activity as of_an_activity};
ghost use Rattle.service_model_types.specs.declared.answer.Answer.TheVariants.{ActivityTask as an_activity_task};
ghost use Rattle.service_model_types.specs.declared.journal.Note.TheVariants.{Taken};
ghost use Rattle.service_model.specs.Outcome.{adds, noted};
ghost use Rattle.service_model.specs.RunState.{is_open, used, is_there};
ghost use Rattle.service_model.specs.Tasks.{take_by_kind, pending_row};
ghost use Rattle.mutable_state.specs.Steps.{has_id};
ghost use Rattle.shard_steps.specs.Attempts.{task_for};
ghost use Rattle.shard_store.specs.Fitting.{FitsStep};
ghost use Rattle.shard_store.specs.ShardView.{ordinal_of, run_in, runs_at, runs_in, state};

use crate::more::add_facts;
use mutable_state_keeper::KeepsRun;
use service_model_types::answer::{ActivityTask, Answer};
use service_model_types::journal::Note;
use service_model_types::request::WaitingTask;
use shard_steps::{attempt_task, note_facts};
use shard_store::{Plan, Store, answered};
use std::alloc::AllocError;
use wf_event::Boxed;
use wf_event_values::Moment;

/// The attempt of an activity is taken, where it waits.
pub(crate) fn take_activity<T: KeepsRun>(
    store: &mut Store<T>,
    moment: Moment,
    wanted: WaitingTask,
) -> Result<Plan<T>, AllocError>
    ensures same { state store.new ≡ state store.old }
    ensures plan { IfOk result (λ plan. FitsStep store.new plan moment
        (take_by_kind (runs_at store.old moment) wanted of_an_activity)) }
{
    let Some(index) = store.place_of(wanted.run) else {
        return Ok(answered(moment, Answer::Stale));
    };
    let Some(task) = attempt_for(store, index, wanted)? else {
        return Ok(answered(moment, Answer::Stale));
    };
    let plan = take_attempt(store, moment, index, wanted, task)?;
    Ok(plan)
}

/// The attempt that is named of the run at a place, where it waits to be taken.
fn attempt_for<T: KeepsRun>(
    store: &Store<T>,
    index: usize,
    wanted: WaitingTask,
) -> Result<Option<ActivityTask>, AllocError>
    requires there { index < length store.now.runs }
    requires begun { is_there (run_in store.now index) ≡ true }
    requires run { ordinal_of index ≡ wanted.run }
    ensures task { IfOk result (λ task. task ≡ task_for (runs_in store.now) wanted
        (pending_row (run_in store.now index) wanted.event)) }
    ensures in_use { IfOk result (λ task. IfSome task
        (λ t. has_id wanted.event (used Activity (run_in store.now index)) ≡ true)) }
    ensures open { IfOk result (λ task. IfSome task
        (λ t. is_open (run_in store.now index) ≡ true)) }
{
    let Some(activity) = store
        .run(index)
        .pending_activity(store.alloc(), wanted.event)?
    else {
        return Ok(None);
    };
    let workflow_id = store.run(index).workflow_id().clone()?;
    let task = attempt_task(&activity, wanted, store.run_id(index), workflow_id)?;
    Ok(task)
}

/// The taking of the attempt of an activity in use.
fn take_attempt<T: KeepsRun>(
    store: &mut Store<T>,
    moment: Moment,
    index: usize,
    wanted: WaitingTask,
    task: ActivityTask,
) -> Result<Plan<T>, AllocError>
    requires there { index < length store.old.runs }
    requires begun { is_there (run_in store.old index) ≡ true }
    requires run { ordinal_of index ≡ wanted.run }
    requires in_use { has_id wanted.event (used Activity (run_in store.old index)) ≡ true }
    requires open { is_open (run_in store.old index) ≡ true }
    ensures same { state store.new ≡ state store.old }
    ensures plan { IfOk result (λ plan. FitsStep store.new plan moment
        (adds wanted.run (noted wanted.event Taken ∷ []) (an_activity_task task))) }
{
    let facts = note_facts(store.alloc(), wanted.event, Note::Taken)?;
    let boxed = Boxed::new(store.alloc(), task)?;
    let plan = add_facts(store, moment, index, facts, Answer::ActivityTask(boxed))?;
    Ok(plan)
}
