//! Verdicts on attempts that ended.
//!
//! Rules: A7, A8, A9, A10, A12, A13, A14, A15, A16.

ghost use Rattle.std.specs.Prelude.{◌≡◌, ◌==◌, ◌&&◌, ◌||◌, not, nat_le, option_copied};
ghost use Rattle.service_model.specs.Retry.{verdict, is_non_retryable, is_listed};
ghost use Rattle.retry.specs.Verdicts.{ending_of};

use crate::waits::wait_after;
use service_model_types::decided::Verdict;
use wf_event::RetryPolicy;
use wf_event_values::{Moment, RetryState, Text};

/// How an attempt of an activity ended.
#[derive(Clone, Copy)]
pub enum Ended<'a> {
    /// By its Start-To-Close or its Heartbeat timeout.
    Timeout,
    /// By a failure, which may have a type, and may be marked as one after which nothing is tried again.
    Failure {
        error_type: Option<&'a Text>,
        non_retryable: bool,
    },
}

/// The verdict on an attempt that ended at a moment, where the activity is to be closed by the
/// deadline, if it has one.
///
/// The first of these that holds decides: its cancellation was requested; the failure is not to be
/// retried; the attempts are used up; the next attempt would begin after the deadline. Else the
/// activity is tried again. Attempts count from 1; the order of the cases is this service's.
#[tactic(auto, unfolding(service_model::specs::Retry::verdict))]
pub fn verdict_on(
    policy: &RetryPolicy,
    ended: Ended,
    cancel_requested: bool,
    attempt: u32,
    at: Moment,
    deadline: Option<u64>,
) -> Verdict
    ensures { result
        ≡ verdict policy.now (ending_of ended.entry) cancel_requested attempt at deadline }
{
    if cancel_requested {
        return Verdict::GiveUp(RetryState::CancelRequested);
    }
    if is_non_retryable(policy, ended) {
        return Verdict::GiveUp(RetryState::NonRetryableFailure);
    }
    if is_last(policy, attempt) {
        return Verdict::GiveUp(RetryState::MaximumAttemptsReached);
    }
    let ready = at.millis() + wait_after(policy, attempt);
    match deadline {
        Some(deadline) if deadline < ready => Verdict::GiveUp(RetryState::Timeout),
        _ => Verdict::Retry { ready },
    }
}

/// Whether nothing is tried again after such an end: a failure that is marked so, or whose type the
/// policy lists.
fn is_non_retryable(policy: &RetryPolicy, ended: Ended) -> bool
    ensures { result ≡ is_non_retryable policy.now (ending_of ended.entry) }
{
    match ended {
        Ended::Timeout => false,
        Ended::Failure {
            error_type,
            non_retryable,
        } => non_retryable || lists(policy, error_type),
    }
}

/// Whether the policy lists a failure's type as not to be retried.
fn lists(policy: &RetryPolicy, error_type: Option<&Text>) -> bool
    ensures { result ≡ is_listed policy.now.non_retryable (option_copied error_type.entry) }
{
    match error_type {
        Some(error_type) => policy
            .fields()
            .non_retryable
            .as_slice()
            .contains(error_type),
        None => false,
    }
}

/// Whether no attempt follows the one of this number. The last number of all ends each policy.
fn is_last(policy: &RetryPolicy, attempt: u32) -> bool
    ensures { result
        ≡ ((not (policy.now.attempts == 0) && nat_le policy.now.attempts attempt)
        || (attempt == 4294967295)) }
{
    let limit = policy.fields().attempts;
    (limit != 0 && limit <= u64::from(attempt)) || attempt == u32::MAX
}
