//! Whether the service has the task queues that a shard names.

ghost use Rattle.std.specs.Prelude.{◌≡◌, ◌<◌, IfOk, length, map};
ghost use Rattle.std.specs.List.{list_all};
ghost use Rattle.checkpoints.specs.Queues.{knows_by, knows_each_of, knows_queues, knows_run};
ghost use Rattle.mutable_state.specs.Activities.{row_said};
ghost use Rattle.service_model.specs.RunState.{ActivityRow};
ghost use Rattle.service_model.specs.Waiting.{all_waiting};
ghost use Rattle.shard_issued.specs.Outstanding.{IsCaughtUp};
ghost use Rattle.shard_store.specs.ShardView.{run_in, state, states};

use mutable_state::Activity;
use mutable_state_keeper::{KeepsRun, Run, TellsRun};
use service_model_types::content::{Dispatch, Setup};
use shard_store::Store;
use std::alloc::{AllocError, Global};
use wf_event::Attributes;

/// Whether the queue of an activity is known.
fn knows_activity(setup: &Setup, activity: &Activity) -> bool
    ensures { result ≡ knows_by setup.now (row_said activity.now).opened.attributes }
{
    match &activity.scheduled.attributes {
        Attributes::ActivityTaskScheduled(scheduled) => setup.knows_queue(
            &scheduled.get().task_queue,
        ),
        _ => true,
    }
}

/// Whether those of some activities are.
fn knows_each(setup: &Setup, activities: &[Activity]) -> bool
    ensures { result ≡ list_all
        (λ (r : ActivityRow). knows_by setup.now r.opened.attributes)
        (map row_said activities.now) }
{
    for place in 0..activities.len() {
        if !knows_activity(setup, &activities[place]) {
            return false;
        }
    }
    true
}

/// Whether the queues of a run and of its activities in use are, where it is open.
fn knows_run<T: TellsRun>(alloc: Global, setup: &Setup, run: &Run<T>) -> Result<bool, AllocError>
    ensures { IfOk result (λ known. known ≡ knows_run setup.now run.now.state) }
{
    if !run.is_open() {
        return Ok(true);
    }
    if !setup.knows_queue(run.task_queue()) {
        return Ok(false);
    }
    let activities = run.activities(alloc)?;
    Ok(knows_each(setup, activities.as_slice()))
}

/// Whether those of the run at a place are, where one is there.
fn knows_run_at<T: TellsRun>(
    alloc: Global,
    store: &Store<T>,
    index: usize,
) -> Result<bool, AllocError>
    requires { index < length store.now.runs }
    ensures { IfOk result (λ known.
        known ≡ knows_run store.now.setup (run_in store.now index)) }
{
    match store.run_at(index) {
        Some(run) => knows_run(alloc, store.setup(), run),
        None => Ok(true),
    }
}

/// Whether those of all open runs are.
fn knows_runs<T: TellsRun>(alloc: Global, store: &Store<T>) -> Result<bool, AllocError>
    ensures { IfOk result (λ known.
        known ≡ list_all (knows_run store.now.setup) (states store.now.runs)) }
{
    for index in 0..store.count() {
        if !knows_run_at(alloc, store, index)? {
            return Ok(false);
        }
    }
    Ok(true)
}

/// Whether those of the dispatches that wait are.
fn knows_dispatches<T: KeepsRun>(store: &Store<T>) -> bool
    requires { IsCaughtUp store.now.changed }
    ensures { result ≡ knows_each_of store.now.setup store.now.waiting.items }
{
    for index in 0..store.waiting_dispatches() {
        if let Some(dispatch) = store.dispatch_at(index) {
            if !store.setup().knows_queue(&dispatch.queue) {
                return false;
            }
        }
    }
    true
}

/// Whether those of some tasks are.
fn knows_tasks(setup: &Setup, tasks: &[Dispatch]) -> bool
    ensures { result ≡ knows_each_of setup.now tasks.now }
{
    tasks.iter().all(|task| setup.knows_queue(&task.queue))
}

/// Whether those of the tasks that wait to be taken are.
fn knows_waiting<T: KeepsRun>(alloc: Global, store: &Store<T>) -> Result<bool, AllocError>
    ensures { IfOk result (λ known. known ≡ knows_each_of store.now.setup
        (all_waiting store.now.setup (states store.now.runs))) }
{
    let tasks = store.waiting_tasks(alloc)?;
    Ok(knows_tasks(store.setup(), tasks.as_slice()))
}

/// Whether the service has each task queue that a shard names: a task that is to be handed to another
/// one would never be.
///
/// # Errors
/// Where memory was refused.
pub(crate) fn knows_all<T: TellsRun>(
    alloc: Global,
    store: &mut Store<T>,
) -> Result<bool, AllocError>
    ensures same { state store.new ≡ state store.old }
    ensures known { IfOk result (λ known. known ≡ knows_queues store.old.setup
        store.old.waiting.items (states store.old.runs)) }
{
    store.catch_up()?;
    Ok(knows_dispatches(store) && knows_runs(alloc, store)? && knows_waiting(alloc, store)?)
}
