//! Whether two events say the same about an activity.

ghost use Rattle.std.specs.Prelude.{◌≡◌, IsTrue};
ghost use Rattle.event_sameness.specs.Groups.{group, OfActivity};

use crate::names::{is_same_retry_state, is_same_timeout};
use crate::values::{are_same_texts, is_same_moment, is_same_optional_text, is_same_span};
use wf_event::payloads::{
    ActivityTaskCanceled, ActivityTaskCompleted, ActivityTaskFailed, ActivityTaskScheduled,
    ActivityTaskStarted, ActivityTaskTimedOut, PolicyFields,
};
use wf_event::{Attributes, RetryPolicy};

/// Whether both are of one kind that speaks of an activity, and carry the same.
#[tactic(auto, unfolding(crate::specs::Groups::group))]
pub(crate) fn is_same_of_activity(one: &Attributes, other: &Attributes) -> bool
    ensures same { IsTrue result → one.now ≡ other.now }
    ensures found { group one.now ≡ OfActivity → one.now ≡ other.now → IsTrue result }
{
    match (one, other) {
        (Attributes::ActivityTaskScheduled(one), Attributes::ActivityTaskScheduled(other)) => {
            is_same_activity(one.get(), other.get())
        }
        (Attributes::ActivityTaskStarted(one), Attributes::ActivityTaskStarted(other)) => {
            is_same_attempt(*one, *other)
        }
        (Attributes::ActivityTaskCompleted(one), Attributes::ActivityTaskCompleted(other)) => {
            is_same_completion(one, other)
        }
        (Attributes::ActivityTaskFailed(one), Attributes::ActivityTaskFailed(other)) => {
            is_same_failure(one.get(), other.get())
        }
        (Attributes::ActivityTaskTimedOut(one), Attributes::ActivityTaskTimedOut(other)) => {
            is_same_activity_timeout(*one, *other)
        }
        (
            Attributes::ActivityTaskCancelRequested(one),
            Attributes::ActivityTaskCancelRequested(other),
        ) => { *one == *other }
        (Attributes::ActivityTaskCanceled(one), Attributes::ActivityTaskCanceled(other)) => {
            is_same_cancellation(one, other)
        }
        _ => false,
    }
}

fn is_same_policy_fields(one: &PolicyFields, other: &PolicyFields) -> bool
    ensures same { IsTrue result → one.now ≡ other.now }
    ensures found { one.now ≡ other.now → IsTrue result }
{
    one.attempts == other.attempts
        && one.coefficient == other.coefficient
        && one.initial == other.initial
        && one.maximum == other.maximum
        && are_same_texts(one.non_retryable.as_slice(), other.non_retryable.as_slice())
}

fn is_same_activity(one: &ActivityTaskScheduled, other: &ActivityTaskScheduled) -> bool
    ensures same { IsTrue result → one.now ≡ other.now }
    ensures found { one.now ≡ other.now → IsTrue result }
{
    one.activity_id == other.activity_id
        && one.activity_type == other.activity_type
        && one.task_queue == other.task_queue
        && one.input == other.input
        && is_same_span(one.schedule_to_start, other.schedule_to_start)
        && is_same_span(one.start_to_close, other.start_to_close)
        && is_same_span(one.schedule_to_close, other.schedule_to_close)
        && is_same_span(one.heartbeat, other.heartbeat)
        && is_same_policy(&one.retry, &other.retry)
}

fn is_same_attempt(one: ActivityTaskStarted, other: ActivityTaskStarted) -> bool
    ensures same { IsTrue result → one ≡ other }
    ensures found { one ≡ other → IsTrue result }
{
    one.scheduled == other.scheduled
        && one.attempt == other.attempt
        && is_same_moment(one.taken, other.taken)
}

fn is_same_completion(one: &ActivityTaskCompleted, other: &ActivityTaskCompleted) -> bool
    ensures same { IsTrue result → one.now ≡ other.now }
    ensures found { one.now ≡ other.now → IsTrue result }
{
    one.scheduled == other.scheduled && one.result_text == other.result_text
}

fn is_same_failure(one: &ActivityTaskFailed, other: &ActivityTaskFailed) -> bool
    ensures same { IsTrue result → one.now ≡ other.now }
    ensures found { one.now ≡ other.now → IsTrue result }
{
    one.scheduled == other.scheduled
        && one.message == other.message
        && is_same_optional_text(one.error_type.as_ref(), other.error_type.as_ref())
        && is_same_retry_state(one.retry, other.retry)
}

fn is_same_activity_timeout(one: ActivityTaskTimedOut, other: ActivityTaskTimedOut) -> bool
    ensures same { IsTrue result → one ≡ other }
    ensures found { one ≡ other → IsTrue result }
{
    one.scheduled == other.scheduled
        && is_same_timeout(one.timeout, other.timeout)
        && is_same_retry_state(one.retry, other.retry)
}

fn is_same_cancellation(one: &ActivityTaskCanceled, other: &ActivityTaskCanceled) -> bool
    ensures same { IsTrue result → one.now ≡ other.now }
    ensures found { one.now ≡ other.now → IsTrue result }
{
    one.scheduled == other.scheduled && one.details == other.details
}

/// Whether two retry policies are the same.
fn is_same_policy(one: &RetryPolicy, other: &RetryPolicy) -> bool
    ensures same { IsTrue result → one.now ≡ other.now }
    ensures found { one.now ≡ other.now → IsTrue result }
{
    is_same_policy_fields(one.fields(), other.fields())
}
