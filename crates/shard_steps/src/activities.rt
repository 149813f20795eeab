//! The task of an activity's attempt that waits to be taken.
//!
//! Rules: A2.

ghost use Rattle.std.specs.Prelude.{◌≡◌, IfOk};
ghost use Rattle.mutable_state.specs.Activities.{row_said};
ghost use Rattle.shard_steps.specs.Attempts.{task_of, waits_at};

use mutable_state::Activity;
use service_model_types::answer::ActivityTask;
use service_model_types::phase::ActivityPhase;
use service_model_types::request::WaitingTask;
use std::alloc::AllocError;
use wf_event::Attributes;
use wf_event_values::{Id, RunId};

/// The task of an activity's attempt, where that waits as it is named.
pub fn attempt_task(
    activity: &Activity,
    waiting: WaitingTask,
    run: RunId,
    workflow_id: Id,
) -> Result<Option<ActivityTask>, AllocError>
    ensures { IfOk result (λ task. task ≡ task_of waiting run workflow_id (row_said activity.now)) }
{
    let Attributes::ActivityTaskScheduled(scheduled) = &activity.scheduled.attributes else {
        return Ok(None);
    };
    if !waits(activity, waiting.attempt) {
        return Ok(None);
    }
    let scheduled = scheduled.get();
    Ok(Some(ActivityTask {
        activity_id: scheduled.activity_id.clone()?,
        activity_type: scheduled.activity_type.clone()?,
        attempt: waiting.attempt,
        details: activity.notes.copy_details()?,
        input: scheduled.input.clone()?,
        run,
        scheduled: waiting.event,
        workflow_id,
    }))
}

/// Whether the activity waits to be taken at this attempt.
fn waits(activity: &Activity, attempt: u32) -> bool
    ensures { result ≡ waits_at attempt (row_said activity.now) }
{
    matches!(activity.notes.phase, ActivityPhase::Queued) && activity.notes.attempt == attempt
}
