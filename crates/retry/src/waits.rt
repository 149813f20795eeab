//! How long an activity waits before it is tried again.
//!
//! Rules: W8, A7, A8, A9, A11, A12, A13, A14, A15, A16.

ghost use Rattle.std.specs.Prelude.{◌≡◌, ◌≤◌, IsTrue};
ghost use Rattle.wf_event.specs.RetryPolicies.{good_policy};
ghost use Rattle.service_model.specs.Retry.{maximum_of, next_wait, wait};
ghost use Rattle.wf_event_values.specs.Limits.{IsSpan};

use wf_event::RetryPolicy;
use wf_event::payloads::PolicyFields;
use wf_event_values::LONGEST_SPAN;

/// How many milliseconds the next attempt waits after the one of this number ended: the initial
/// interval after the first, and then so many hundredths of the wait before as the policy's
/// coefficient says, rounded up each time, and never more than the maximum.
///
/// Attempts count from 1, and 0 is read as 1. No product is ever above 10^17. The turns end where a
/// wait is followed by itself. Until then each is longer than the one before it, by at least a
/// hundredth, so there are at most some 2,400, however many attempts there were.
pub fn wait_after(policy: &RetryPolicy, attempt: u32) -> u64
    ensures value { result ≡ wait policy.now attempt }
    ensures limit { IsSpan result }
{
    let fields = policy.fields();
    wait(fields, maximum_of(fields), attempt)
}

/// The longest wait between two attempts, in milliseconds: the policy's maximum, where 0 stands for the
/// default of 100 times the initial interval (Temporal, Retry Policies), here at most 10^12.
pub fn maximum_of(fields: &PolicyFields) -> u64
    ensures { result ≡ maximum_of fields.now }
{
    if fields.maximum == 0 {
        fields.initial.saturating_mul(100).min(LONGEST_SPAN)
    } else {
        fields.maximum
    }
}

/// How many milliseconds the attempt after the one of this number waits.
fn wait(fields: &PolicyFields, maximum: u64, attempt: u32) -> u64
    requires good { IsTrue (good_policy fields.now) }
    requires maximum { maximum ≡ maximum_of fields.now }
    ensures value { result ≡ wait fields.now attempt }
    ensures limit { IsSpan result }
{
    let mut wait = maximum.min(fields.initial);
    for _turn in 1..attempt {
        let next = next_wait(fields, maximum, wait);
        if next == wait {
            return wait;
        }
        wait = next;
    }
    wait
}

/// How many milliseconds the wait after one of so many lasts.
fn next_wait(fields: &PolicyFields, maximum: u64, wait: u64) -> u64
    requires good { IsTrue (good_policy fields.now) }
    requires maximum { maximum ≡ maximum_of fields.now }
    requires within { wait ≤ maximum }
    ensures { result ≡ next_wait fields.now wait }
{
    maximum.min((wait * fields.coefficient).div_ceil(100))
}
