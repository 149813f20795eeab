//! Whether two events say the same about a child.

ghost use Rattle.std.specs.Prelude.{◌≡◌, IsTrue};
ghost use Rattle.event_sameness.specs.Groups.{group, OfChild};

use crate::names::{is_same_cause, is_same_parent_close, is_same_reuse};
use crate::values::{is_same_run, is_same_span};
use wf_event::Attributes;
use wf_event::payloads::{
    ChildEnd, ChildEndText, ChildWorkflowExecutionStarted, StartChildWorkflowExecutionFailed,
    StartChildWorkflowExecutionInitiated,
};

/// Whether both are of one kind that speaks of a child, and carry the same.
#[tactic(auto, unfolding(crate::specs::Groups::group))]
pub(crate) fn is_same_of_child(one: &Attributes, other: &Attributes) -> bool
    ensures same { IsTrue result → one.now ≡ other.now }
    ensures found { group one.now ≡ OfChild → one.now ≡ other.now → IsTrue result }
{
    match (one, other) {
        (
            Attributes::StartChildWorkflowExecutionInitiated(one),
            Attributes::StartChildWorkflowExecutionInitiated(other),
        ) => { is_same_child(one.get(), other.get()) }
        (
            Attributes::StartChildWorkflowExecutionFailed(one),
            Attributes::StartChildWorkflowExecutionFailed(other),
        ) => { is_same_child_failure(one, other) }
        (
            Attributes::ChildWorkflowExecutionStarted(one),
            Attributes::ChildWorkflowExecutionStarted(other),
        ) => { is_same_child_start(one.get(), other.get()) }
        (
            Attributes::ChildWorkflowExecutionCompleted(one),
            Attributes::ChildWorkflowExecutionCompleted(other),
        ) => { is_same_child_end_text(one.get(), other.get()) }
        (
            Attributes::ChildWorkflowExecutionFailed(one),
            Attributes::ChildWorkflowExecutionFailed(other),
        ) => { is_same_child_end_text(one.get(), other.get()) }
        (
            Attributes::ChildWorkflowExecutionCanceled(one),
            Attributes::ChildWorkflowExecutionCanceled(other),
        ) => { is_same_child_end_text(one.get(), other.get()) }
        (
            Attributes::ChildWorkflowExecutionTimedOut(one),
            Attributes::ChildWorkflowExecutionTimedOut(other),
        ) => { is_same_child_end(*one, *other) }
        (
            Attributes::ChildWorkflowExecutionTerminated(one),
            Attributes::ChildWorkflowExecutionTerminated(other),
        ) => { is_same_child_end(*one, *other) }
        _ => false,
    }
}

fn is_same_child(
    one: &StartChildWorkflowExecutionInitiated,
    other: &StartChildWorkflowExecutionInitiated,
) -> bool
    ensures same { IsTrue result → one.now ≡ other.now }
    ensures found { one.now ≡ other.now → IsTrue result }
{
    one.workflow_id == other.workflow_id
        && one.workflow_type == other.workflow_type
        && one.task_queue == other.task_queue
        && one.input == other.input
        && is_same_reuse(one.reuse, other.reuse)
        && is_same_parent_close(one.parent_close, other.parent_close)
        && is_same_span(one.run_timeout, other.run_timeout)
        && is_same_span(one.task_timeout, other.task_timeout)
}

fn is_same_child_failure(
    one: &StartChildWorkflowExecutionFailed,
    other: &StartChildWorkflowExecutionFailed,
) -> bool
    ensures same { IsTrue result → one.now ≡ other.now }
    ensures found { one.now ≡ other.now → IsTrue result }
{
    one.initiated == other.initiated
        && one.workflow_id == other.workflow_id
        && is_same_cause(one.cause, other.cause)
}

fn is_same_child_start(
    one: &ChildWorkflowExecutionStarted,
    other: &ChildWorkflowExecutionStarted,
) -> bool
    ensures same { IsTrue result → one.now ≡ other.now }
    ensures found { one.now ≡ other.now → IsTrue result }
{
    one.initiated == other.initiated
        && one.workflow_id == other.workflow_id
        && is_same_run(one.run, other.run)
}

fn is_same_child_end_text(one: &ChildEndText, other: &ChildEndText) -> bool
    ensures same { IsTrue result → one.now ≡ other.now }
    ensures found { one.now ≡ other.now → IsTrue result }
{
    one.initiated == other.initiated && is_same_run(one.run, other.run) && one.text == other.text
}

fn is_same_child_end(one: ChildEnd, other: ChildEnd) -> bool
    ensures same { IsTrue result → one ≡ other }
    ensures found { one ≡ other → IsTrue result }
{
    one.initiated == other.initiated && is_same_run(one.run, other.run)
}
