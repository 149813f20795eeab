//! The tasks that a run hands to their queues, by the events that schedule them.
//!
//! Rules: Q2.

ghost use Rattle.std.specs.Prelude.{◌≡◌, filter_map, IfOk};
ghost use Rattle.service_model.specs.Issued.{task_dispatch};

use event_pieces::Events;
use service_model_types::content::{Dispatch, Setup};
use service_model_types::request::Hint;
use std::alloc::{AllocError, Global};
use wf_event::{Attributes, Event};
use wf_event_values::TaskKind;

/// The dispatch of the task that an event schedules in the run with this ordinal, if it schedules
/// one.
fn task_dispatch(setup: &Setup, run: u64, event: &Event) -> Result<Option<Dispatch>, AllocError>
    ensures { IfOk result (λ found. found ≡ task_dispatch setup.now run event.now) }
{
    let (queue, kind, attempt) = match &event.attributes {
        Attributes::WorkflowTaskScheduled(task) => {
            (task.task_queue.clone()?, TaskKind::Workflow, task.attempt)
        }
        Attributes::ActivityTaskScheduled(activity) => {
            (activity.get().task_queue.clone()?, TaskKind::Activity, 1)
        }
        _ => return Ok(None),
    };
    let hint = Hint {
        kind,
        shard: setup.shard,
        run,
        event: event.id,
        attempt,
    };
    Ok(Some(Dispatch { queue, hint }))
}

/// The dispatches of the tasks that these events schedule in the run with this ordinal.
pub fn dispatches_of(
    alloc: Global,
    setup: &Setup,
    run: u64,
    events: &Events<'_>,
) -> Result<Vec<Dispatch>, AllocError>
    ensures { IfOk result (λ found. found.items
        ≡ filter_map (task_dispatch setup.now run) events.now) }
{
    let mut found = Vec::new(alloc);
    for event in events.again() {
        if let Some(dispatch) = task_dispatch(setup, run, event)? {
            found.push(dispatch)?;
        }
    }
    Ok(found)
}
