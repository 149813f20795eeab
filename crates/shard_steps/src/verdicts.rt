//! The verdicts on attempts that ended without success.
//!
//! Rules: A1, A2, A3, A7, A8, A9, A10, A11, A12, A13, A14, A15, A16.

ghost use Rattle.std.specs.Prelude.{◌≡◌, ◌==◌, ◌+◌, cond, None, Some, option_map, IfOk, IfSome};
ghost use Rattle.wf_event.specs.declared.attributes.Attributes.TheVariants.{ActivityTaskFailed as a_failure};
ghost use Rattle.service_model.specs.Activities.{verdict_at};
ghost use Rattle.service_model.specs.Deadlines.{scheduled_fields};
ghost use Rattle.service_model.specs.Retry.{verdict};
ghost use Rattle.mutable_state.specs.Activities.{row_said};
ghost use Rattle.retry.specs.Verdicts.{ending_of};
ghost use Rattle.shard_steps.specs.Attempts.{HasNext};

use mutable_state::Activity;
use retry::{Ended, verdict_on};
use service_model_types::decided::Verdict;
use service_model_types::request::FailActivity;
use std::alloc::{AllocError, Global};
use wf_event::payloads::ActivityTaskFailed;
use wf_event::{Attributes, Boxed, RetryPolicy};
use wf_event_values::{Moment, RetryState, Span, Text};

/// The verdict on the attempt of an activity that ended so at a moment.
pub fn verdict_of(activity: &Activity, ended: Ended, moment: Moment) -> Option<Verdict>
    ensures verdict { result
        ≡ option_map (λ a. verdict_at (row_said activity.now) a (ending_of ended.entry) moment)
        (scheduled_fields activity.now.scheduled.attributes) }
    ensures next { IfSome result (λ verdict. HasNext activity.now.notes.attempt verdict) }
{
    let Attributes::ActivityTaskScheduled(scheduled) = &activity.scheduled.attributes else {
        return None;
    };
    let scheduled = scheduled.get();
    Some(judged(
        &scheduled.retry,
        ended,
        activity.notes.cancel_requested,
        activity.notes.attempt,
        moment,
        close_deadline(activity.scheduled.at, scheduled.schedule_to_close),
    ))
}

/// The verdict by a policy. No attempt follows the one of the last number.
fn judged(
    policy: &RetryPolicy,
    ended: Ended,
    cancel_requested: bool,
    attempt: u32,
    at: Moment,
    deadline: Option<u64>,
) -> Verdict
    ensures verdict { result
        ≡ verdict policy.now (ending_of ended.entry) cancel_requested attempt at deadline }
    ensures next { HasNext attempt result }
{
    verdict_on(policy, ended, cancel_requested, attempt, at, deadline)
}

/// The moment after which an activity is not tried again, in milliseconds.
fn close_deadline(scheduled: Moment, schedule_to_close: Span) -> Option<u64>
    ensures { result ≡ cond (schedule_to_close == 0) None (Some (scheduled + schedule_to_close)) }
{
    if schedule_to_close.millis() == 0 {
        return None;
    }
    Some(scheduled.millis() + schedule_to_close.millis())
}

/// The end of an activity by a failure that is not retried.
pub fn failure(
    alloc: Global,
    request: &FailActivity,
    retry: RetryState,
) -> Result<Attributes, AllocError>
    ensures { IfOk result (λ last. last ≡ a_failure (record {
      scheduled = request.now.task.event;
      message = request.now.message;
      error_type = request.now.error_type;
      retry = retry;
    })) }
{
    let fields = ActivityTaskFailed {
        scheduled: request.task.event,
        message: request.message.clone()?,
        error_type: copied_type(&request.error_type)?,
        retry,
    };
    Ok(Attributes::ActivityTaskFailed(Boxed::new(alloc, fields)?))
}

/// A copy of a failure's type.
fn copied_type(error_type: &Option<Text>) -> Result<Option<Text>, AllocError>
    ensures { IfOk result (λ copy. copy ≡ error_type.now) }
{
    match error_type {
        Some(error_type) => Ok(Some(error_type.clone()?)),
        None => Ok(None),
    }
}
