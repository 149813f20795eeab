//! Whether two transfers carry the same.

ghost use Rattle.std.specs.Prelude.{◌≡◌, IsTrue};

use crate::names::{
    is_same_child_status, is_same_external_kind, is_same_parent_close, is_same_reuse,
};
use crate::values::{is_same_optional_run, is_same_run, is_same_span};
use service_model_types::transfer::{
    CancelExternalTransfer, ChildClosed, ChildStartFailed, ChildStarted, CloseChild,
    ExternalDoneTransfer, SignalExternalTransfer, StartChildTransfer, TransferContent,
};

/// Whether two transfers carry the same.
pub fn is_same_content(one: &TransferContent, other: &TransferContent) -> bool
    ensures same { IsTrue result → one.now ≡ other.now }
    ensures found { one.now ≡ other.now → IsTrue result }
{
    match (one, other) {
        (TransferContent::StartChild(one), TransferContent::StartChild(other)) => {
            is_same_child(one, other)
        }
        (TransferContent::ChildStarted(one), TransferContent::ChildStarted(other)) => {
            is_same_child_start(one, other)
        }
        (TransferContent::ChildStartFailed(one), TransferContent::ChildStartFailed(other)) => {
            is_same_child_failure(one, other)
        }
        (TransferContent::ChildClosed(one), TransferContent::ChildClosed(other)) => {
            is_same_child_close(one, other)
        }
        (TransferContent::CloseChild(one), TransferContent::CloseChild(other)) => {
            is_same_close_policy(one, other)
        }
        (TransferContent::SignalExternal(one), TransferContent::SignalExternal(other)) => {
            is_same_signal(one, other)
        }
        (TransferContent::CancelExternal(one), TransferContent::CancelExternal(other)) => {
            is_same_cancel(one, other)
        }
        (TransferContent::ExternalDone(one), TransferContent::ExternalDone(other)) => {
            is_same_external_answer(one, other)
        }
        _ => false,
    }
}

fn is_same_child(one: &StartChildTransfer, other: &StartChildTransfer) -> bool
    ensures same { IsTrue result → one.now ≡ other.now }
    ensures found { one.now ≡ other.now → IsTrue result }
{
    is_same_run(one.parent_run, other.parent_run)
        && one.initiated == other.initiated
        && one.workflow_id == other.workflow_id
        && one.workflow_type == other.workflow_type
        && one.task_queue == other.task_queue
        && one.input == other.input
        && is_same_reuse(one.reuse, other.reuse)
        && is_same_span(one.run_timeout, other.run_timeout)
        && is_same_span(one.task_timeout, other.task_timeout)
}

fn is_same_child_start(one: &ChildStarted, other: &ChildStarted) -> bool
    ensures same { IsTrue result → one.now ≡ other.now }
    ensures found { one.now ≡ other.now → IsTrue result }
{
    is_same_run(one.parent_run, other.parent_run)
        && one.initiated == other.initiated
        && is_same_run(one.run, other.run)
}

fn is_same_child_failure(one: &ChildStartFailed, other: &ChildStartFailed) -> bool
    ensures same { IsTrue result → one.now ≡ other.now }
    ensures found { one.now ≡ other.now → IsTrue result }
{
    is_same_run(one.parent_run, other.parent_run) && one.initiated == other.initiated
}

fn is_same_child_close(one: &ChildClosed, other: &ChildClosed) -> bool
    ensures same { IsTrue result → one.now ≡ other.now }
    ensures found { one.now ≡ other.now → IsTrue result }
{
    is_same_run(one.parent_run, other.parent_run)
        && one.initiated == other.initiated
        && is_same_run(one.run, other.run)
        && is_same_child_status(one.status, other.status)
        && one.text == other.text
}

fn is_same_close_policy(one: &CloseChild, other: &CloseChild) -> bool
    ensures same { IsTrue result → one.now ≡ other.now }
    ensures found { one.now ≡ other.now → IsTrue result }
{
    is_same_run(one.parent_run, other.parent_run)
        && one.initiated == other.initiated
        && one.workflow_id == other.workflow_id
        && is_same_parent_close(one.policy, other.policy)
}

fn is_same_signal(one: &SignalExternalTransfer, other: &SignalExternalTransfer) -> bool
    ensures same { IsTrue result → one.now ≡ other.now }
    ensures found { one.now ≡ other.now → IsTrue result }
{
    is_same_run(one.from_run, other.from_run)
        && one.initiated == other.initiated
        && one.workflow_id == other.workflow_id
        && is_same_optional_run(one.run, other.run)
        && one.name == other.name
        && one.input == other.input
}

fn is_same_cancel(one: &CancelExternalTransfer, other: &CancelExternalTransfer) -> bool
    ensures same { IsTrue result → one.now ≡ other.now }
    ensures found { one.now ≡ other.now → IsTrue result }
{
    is_same_run(one.from_run, other.from_run)
        && one.initiated == other.initiated
        && one.workflow_id == other.workflow_id
        && is_same_optional_run(one.run, other.run)
}

fn is_same_external_answer(one: &ExternalDoneTransfer, other: &ExternalDoneTransfer) -> bool
    ensures same { IsTrue result → one.now ≡ other.now }
    ensures found { one.now ≡ other.now → IsTrue result }
{
    is_same_run(one.to_run, other.to_run)
        && one.initiated == other.initiated
        && is_same_external_kind(one.kind, other.kind)
        && one.done == other.done
}
