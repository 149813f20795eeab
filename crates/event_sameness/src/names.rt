//! Whether two names of a fixed list are the same.

ghost use Rattle.std.specs.Prelude.{◌≡◌, IsTrue};

use service_model_types::transfer::{ChildStatus, ExternalKind};
use wf_event_values::{
    CancelSource, Cause, ParentClosePolicy, RetryState, ReusePolicy, TaskKind, TimeoutKind,
};

/// Whether the same asked for two cancellations.
pub(crate) fn is_same_source(one: CancelSource, other: CancelSource) -> bool
    ensures same { IsTrue result → one ≡ other }
    ensures found { one ≡ other → IsTrue result }
{
    match (one, other) {
        (CancelSource::Client, CancelSource::Client)
        | (CancelSource::Parent, CancelSource::Parent)
        | (CancelSource::External, CancelSource::External) => true,
        _ => false,
    }
}

/// Whether two causes are the same.
pub(crate) fn is_same_cause(one: Cause, other: Cause) -> bool
    ensures same { IsTrue result → one ≡ other }
    ensures found { one ≡ other → IsTrue result }
{
    match (one, other) {
        (Cause::UnhandledCommand, Cause::UnhandledCommand)
        | (Cause::CommandAfterClose, Cause::CommandAfterClose)
        | (Cause::WorkflowWorkerUnhandledFailure, Cause::WorkflowWorkerUnhandledFailure)
        | (Cause::BadScheduleActivityAttributes, Cause::BadScheduleActivityAttributes)
        | (Cause::ScheduleActivityDuplicateId, Cause::ScheduleActivityDuplicateId)
        | (Cause::PendingActivitiesLimitExceeded, Cause::PendingActivitiesLimitExceeded)
        | (Cause::BadRequestCancelActivityAttributes, Cause::BadRequestCancelActivityAttributes)
        | (Cause::BadStartTimerAttributes, Cause::BadStartTimerAttributes)
        | (Cause::StartTimerDuplicateId, Cause::StartTimerDuplicateId)
        | (Cause::BadCancelTimerAttributes, Cause::BadCancelTimerAttributes)
        | (Cause::BadContinueAsNewAttributes, Cause::BadContinueAsNewAttributes)
        | (Cause::BadStartChildExecutionAttributes, Cause::BadStartChildExecutionAttributes)
        | (Cause::PendingChildWorkflowsLimitExceeded, Cause::PendingChildWorkflowsLimitExceeded)
        | (Cause::PendingSignalsLimitExceeded, Cause::PendingSignalsLimitExceeded)
        | (Cause::PendingRequestCancelLimitExceeded, Cause::PendingRequestCancelLimitExceeded)
        | (Cause::WorkflowAlreadyExists, Cause::WorkflowAlreadyExists)
        | (Cause::ExternalWorkflowExecutionNotFound, Cause::ExternalWorkflowExecutionNotFound) =>
            true,
        _ => false,
    }
}

/// Whether two reasons not to try again are the same.
pub(crate) fn is_same_retry_state(one: RetryState, other: RetryState) -> bool
    ensures same { IsTrue result → one ≡ other }
    ensures found { one ≡ other → IsTrue result }
{
    match (one, other) {
        (RetryState::CancelRequested, RetryState::CancelRequested)
        | (RetryState::NonRetryableFailure, RetryState::NonRetryableFailure)
        | (RetryState::MaximumAttemptsReached, RetryState::MaximumAttemptsReached)
        | (RetryState::Timeout, RetryState::Timeout) => true,
        _ => false,
    }
}

/// Whether two limits of time are the same.
pub(crate) fn is_same_timeout(one: TimeoutKind, other: TimeoutKind) -> bool
    ensures same { IsTrue result → one ≡ other }
    ensures found { one ≡ other → IsTrue result }
{
    match (one, other) {
        (TimeoutKind::ScheduleToStart, TimeoutKind::ScheduleToStart)
        | (TimeoutKind::StartToClose, TimeoutKind::StartToClose)
        | (TimeoutKind::ScheduleToClose, TimeoutKind::ScheduleToClose)
        | (TimeoutKind::Heartbeat, TimeoutKind::Heartbeat) => true,
        _ => false,
    }
}

/// Whether two reuse policies are the same.
pub(crate) fn is_same_reuse(one: ReusePolicy, other: ReusePolicy) -> bool
    ensures same { IsTrue result → one ≡ other }
    ensures found { one ≡ other → IsTrue result }
{
    match (one, other) {
        (ReusePolicy::AllowDuplicate, ReusePolicy::AllowDuplicate)
        | (ReusePolicy::AllowDuplicateFailedOnly, ReusePolicy::AllowDuplicateFailedOnly)
        | (ReusePolicy::RejectDuplicate, ReusePolicy::RejectDuplicate) => true,
        _ => false,
    }
}

/// Whether two parent close policies are the same.
pub(crate) fn is_same_parent_close(one: ParentClosePolicy, other: ParentClosePolicy) -> bool
    ensures same { IsTrue result → one ≡ other }
    ensures found { one ≡ other → IsTrue result }
{
    match (one, other) {
        (ParentClosePolicy::Terminate, ParentClosePolicy::Terminate)
        | (ParentClosePolicy::Abandon, ParentClosePolicy::Abandon)
        | (ParentClosePolicy::RequestCancel, ParentClosePolicy::RequestCancel) => true,
        _ => false,
    }
}

/// Whether two kinds of task are the same.
pub(crate) fn is_same_task_kind(one: TaskKind, other: TaskKind) -> bool
    ensures same { IsTrue result → one ≡ other }
    ensures found { one ≡ other → IsTrue result }
{
    match (one, other) {
        (TaskKind::Workflow, TaskKind::Workflow) | (TaskKind::Activity, TaskKind::Activity) => true,
        _ => false,
    }
}

/// Whether two children closed in the same way.
pub(crate) fn is_same_child_status(one: ChildStatus, other: ChildStatus) -> bool
    ensures same { IsTrue result → one ≡ other }
    ensures found { one ≡ other → IsTrue result }
{
    match (one, other) {
        (ChildStatus::Completed, ChildStatus::Completed)
        | (ChildStatus::Failed, ChildStatus::Failed)
        | (ChildStatus::Canceled, ChildStatus::Canceled)
        | (ChildStatus::TimedOut, ChildStatus::TimedOut)
        | (ChildStatus::Terminated, ChildStatus::Terminated) => true,
        _ => false,
    }
}

/// Whether two kinds of external request are the same.
pub(crate) fn is_same_external_kind(one: ExternalKind, other: ExternalKind) -> bool
    ensures same { IsTrue result → one ≡ other }
    ensures found { one ≡ other → IsTrue result }
{
    match (one, other) {
        (ExternalKind::Signal, ExternalKind::Signal)
        | (ExternalKind::Cancel, ExternalKind::Cancel) => true,
        _ => false,
    }
}
