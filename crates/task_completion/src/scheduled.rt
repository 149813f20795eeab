//! What the event of a scheduled activity carries.

ghost use Rattle.std.specs.Prelude.{◌≡◌, IfOk, IsTrue};
ghost use Rattle.wf_event.specs.RetryPolicies.{good_policy};
ghost use Rattle.service_model.specs.Completion.{with_maximum};
ghost use Rattle.task_completion.specs.Judging.{scheduled_by};

use retry::maximum_of;
use std::alloc::{AllocError, Global};
use wf_command::command::ScheduleActivityTask;
use wf_event::payloads::{ActivityTaskScheduled, PolicyFields};
use wf_event::{Attributes, Boxed, RetryPolicy};

/// The event of an activity whose policy is in range.
pub(crate) fn scheduled(
    alloc: Global,
    activity: &ScheduleActivityTask,
) -> Result<Attributes, AllocError>
    requires { IsTrue (good_policy activity.now.retry) }
    ensures { IfOk result (λ attributes. attributes ≡ scheduled_by activity.now) }
{
    let fields = ActivityTaskScheduled {
        activity_id: activity.activity_id.clone()?,
        activity_type: activity.activity_type.clone()?,
        task_queue: activity.task_queue.clone()?,
        input: activity.input.clone()?,
        schedule_to_start: activity.schedule_to_start,
        start_to_close: activity.start_to_close,
        schedule_to_close: activity.schedule_to_close,
        heartbeat: activity.heartbeat,
        retry: retry(&activity.retry)?,
    };
    Ok(Attributes::ActivityTaskScheduled(Boxed::new(alloc, fields)?))
}

/// The policy that the event has.
fn retry(policy: &PolicyFields) -> Result<RetryPolicy, AllocError>
    requires { IsTrue (good_policy policy.now) }
    ensures { IfOk result (λ retry. retry ≡ with_maximum policy.now) }
{
    match RetryPolicy::new(with_maximum(policy)?) {
        Ok(retry) => Ok(retry),
        Err(_) => unreachable!(),
    }
}

/// The policy with its maximum, where a maximum of 0 stands for the default.
fn with_maximum(policy: &PolicyFields) -> Result<PolicyFields, AllocError>
    ensures { IfOk result (λ fields. fields ≡ with_maximum policy.now) }
{
    let mut fields = policy.clone()?;
    fields.maximum = maximum_of(policy);
    Ok(fields)
}
