//! The tasks of a run that wait to be taken.
//!
//! Rules: S1.

ghost use Rattle.std.specs.Prelude.{◌≡◌, IfOk};
ghost use Rattle.service_model.specs.Tasks.{is_queued};
ghost use Rattle.service_model.specs.Waiting.{waiting_of};
ghost use Rattle.mutable_state.specs.Activities.{row_said};
ghost use Rattle.mutable_state.specs.Tasks.{numbers_in};
ghost use Rattle.service_model.specs.RunState.{last_task};
ghost use Rattle.shard_issued.specs.Awaiting.{is_waiting, still_waiting, waiting_attempt};

use crate::dispatches::attempt_dispatch;
use mutable_state::{Activity, WorkflowTask, is_scheduled};
use mutable_state_keeper::{KeepsRun, Run};
use service_model_types::content::{Dispatch, Setup};
use service_model_types::phase::ActivityPhase;
use std::alloc::{AllocError, Global};
use wf_event_values::TaskKind;

/// The tasks of the run with this ordinal that wait to be taken, in the order of the events that
/// scheduled them: its workflow task while it is scheduled, and each pending activity's attempt while
/// that is queued.
pub fn waiting_tasks<T: KeepsRun>(
    alloc: Global,
    setup: &Setup,
    run: &Run<T>,
    ordinal: u64,
) -> Result<Vec<Dispatch>, AllocError>
    ensures { IfOk result (λ waiting. waiting.items ≡ waiting_of setup.now ordinal run.now.state) }
{
    let scheduled = run.dispatches(alloc, setup, ordinal, 0)?;
    let task = run.task(alloc)?;
    let mut waiting = Vec::new(alloc);
    for dispatch in scheduled {
        if let Some(found) = still_waiting(alloc, setup, run, ordinal, &task, dispatch)? {
            waiting.push(found)?;
        }
    }
    Ok(waiting)
}

/// What waits of a task of the run that was dispatched, where this is the run's workflow task.
fn still_waiting<T: KeepsRun>(
    alloc: Global,
    setup: &Setup,
    run: &Run<T>,
    ordinal: u64,
    task: &WorkflowTask,
    dispatch: Dispatch,
) -> Result<Option<Dispatch>, AllocError>
    requires phase { task.now.phase ≡ run.now.state.task }
    requires numbers { numbers_in task.now ≡ last_task run.now.state }
    ensures { IfOk result (λ found.
        found ≡ still_waiting setup.now ordinal run.now.state dispatch) }
{
    match dispatch.hint.kind {
        TaskKind::Workflow => {
            if is_waiting(task, dispatch.hint.event) {
                Ok(Some(dispatch))
            } else {
                Ok(None)
            }
        }
        TaskKind::Activity => waiting_attempt(alloc, setup, run, ordinal, dispatch.hint.event),
    }
}

/// Whether a workflow task waits to be taken, and this event scheduled it.
fn is_waiting(task: &WorkflowTask, event: u64) -> bool
    ensures { result ≡ is_waiting task.now.phase (numbers_in task.now) event }
{
    is_scheduled(task.phase) && task.scheduled == event
}

/// The attempt of the pending activity that this event scheduled, where it waits to be taken.
fn waiting_attempt<T: KeepsRun>(
    alloc: Global,
    setup: &Setup,
    run: &Run<T>,
    ordinal: u64,
    id: u64,
) -> Result<Option<Dispatch>, AllocError>
    ensures { IfOk result (λ found. found ≡ waiting_attempt setup.now ordinal run.now.state id) }
{
    let Some(activity) = run.pending_activity(alloc, id)? else {
        return Ok(None);
    };
    if !is_queued(&activity) {
        return Ok(None);
    }
    let dispatch = attempt_dispatch(setup, ordinal, &activity)?;
    Ok(dispatch)
}

fn is_queued(activity: &Activity) -> bool
    ensures { result ≡ is_queued (row_said activity.now).phase }
{
    matches!(activity.notes.phase, ActivityPhase::Queued)
}
