//! The decision on a workflow ID.
//!
//! Rules: I1, I2, I3, I4, I5, I6, I7, I8, F3.

ghost use Rattle.std.specs.Prelude.{◌≡◌, ◌≢◌, Some, option_copied};
ghost use Rattle.service_model.specs.IdPolicy.{decide, is_same_request, is_failed, on_open, on_closed, New as NewRun};
ghost use Rattle.wf_event_values.specs.declared.policies.Status.TheVariants.{Running};
ghost use Rattle.id_policy.specs.Decisions.{status_of, bears};

use service_model_types::decided::Decision;
use wf_event_values::{ConflictPolicy, Id, ReusePolicy, Status};

/// The latest run of a workflow ID: where it stands, and the request id of its start, if it had one.
#[derive(Clone, Copy)]
pub struct Latest<'a> {
    pub status: Status,
    pub request_id: Option<&'a Id>,
}

/// What a start does where the ID's latest run is this one, or none.
///
/// The request id is looked at first (this service's rule), then the conflict policy where the run
/// is open, and the reuse policy where it is closed.
#[tactic(auto, unfolding(service_model::specs::IdPolicy::decide))]
pub fn decide(
    latest: Option<&Latest>,
    reuse: ReusePolicy,
    conflict: ConflictPolicy,
    request_id: Option<&Id>,
) -> Decision
    ensures value { let run = option_copied latest.entry in
        result
        ≡ decide (status_of run) (bears run (option_copied request_id.entry)) reuse conflict }
    // An ID has at most one open run.
    ensures one_open { result ≡ NewRun
        → status_of (option_copied latest.entry) ≢ Some Running }
{
    let Some(latest) = latest else {
        return Decision::New;
    };
    if is_same_request(request_id, latest.request_id) {
        return Decision::Same;
    }
    match latest.status {
        Status::Running => on_open(conflict),
        status => on_closed(reuse, status),
    }
}

/// Whether both are given, and are the same.
fn is_same_request(given: Option<&Id>, first: Option<&Id>) -> bool
    ensures { result ≡ is_same_request (option_copied given.entry) (option_copied first.entry) }
{
    match (given, first) {
        (Some(given), Some(first)) => given == first,
        _ => false,
    }
}

/// The decision where the latest run is open (Temporal, Workflow ID conflict policy).
fn on_open(conflict: ConflictPolicy) -> Decision
    ensures { result ≡ on_open conflict }
{
    match conflict {
        ConflictPolicy::Fail => Decision::Refused,
        ConflictPolicy::UseExisting => Decision::Existing,
        ConflictPolicy::TerminateExisting => Decision::TerminateThenNew,
    }
}

/// The decision where the latest run is closed (Temporal, Workflow ID reuse policy).
fn on_closed(reuse: ReusePolicy, status: Status) -> Decision
    ensures { result ≡ on_closed reuse status }
{
    match reuse {
        ReusePolicy::AllowDuplicate => Decision::New,
        ReusePolicy::AllowDuplicateFailedOnly if is_failed(status) => Decision::New,
        ReusePolicy::AllowDuplicateFailedOnly | ReusePolicy::RejectDuplicate => Decision::Refused,
    }
}

/// Whether a run that ended so may be followed under AllowDuplicateFailedOnly.
fn is_failed(status: Status) -> bool
    ensures { result ≡ is_failed status }
{
    matches!(
        status,
        Status::Failed | Status::TimedOut | Status::Terminated | Status::Canceled
    )
}
