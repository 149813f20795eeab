//! Whether two events say the same about their run: how it started, closed, was signaled or was asked to
//! cancel.

ghost use Rattle.std.specs.Prelude.{◌≡◌, IsTrue};
ghost use Rattle.event_sameness.specs.Groups.{group, OfRun};

use crate::names::is_same_source;
use crate::values::{
    is_same_optional_number, is_same_optional_parent, is_same_optional_run, is_same_run,
    is_same_span,
};
use wf_event::Attributes;
use wf_event::payloads::{
    WorkflowExecutionContinuedAsNew, WorkflowExecutionSignaled, WorkflowExecutionStarted,
};

/// Whether both are of one kind that speaks of the run, and carry the same.
#[tactic(auto, unfolding(crate::specs::Groups::group))]
pub(crate) fn is_same_of_run(one: &Attributes, other: &Attributes) -> bool
    ensures same { IsTrue result → one.now ≡ other.now }
    ensures found { group one.now ≡ OfRun → one.now ≡ other.now → IsTrue result }
{
    match (one, other) {
        (Attributes::WorkflowExecutionStarted(one), Attributes::WorkflowExecutionStarted(other)) =>
            { is_same_start(one.get(), other.get()) }
        (
            Attributes::WorkflowExecutionCompleted(one),
            Attributes::WorkflowExecutionCompleted(other),
        ) => { one == other }
        (Attributes::WorkflowExecutionFailed(one), Attributes::WorkflowExecutionFailed(other)) => {
            one == other
        }
        (Attributes::WorkflowExecutionTimedOut, Attributes::WorkflowExecutionTimedOut) => true,
        (
            Attributes::WorkflowExecutionCanceled(one),
            Attributes::WorkflowExecutionCanceled(other),
        ) => { one == other }
        (
            Attributes::WorkflowExecutionTerminated(one),
            Attributes::WorkflowExecutionTerminated(other),
        ) => { one == other }
        (
            Attributes::WorkflowExecutionContinuedAsNew(one),
            Attributes::WorkflowExecutionContinuedAsNew(other),
        ) => { is_same_continuation(one.get(), other.get()) }
        (
            Attributes::WorkflowExecutionCancelRequested(one),
            Attributes::WorkflowExecutionCancelRequested(other),
        ) => { is_same_source(*one, *other) }
        (
            Attributes::WorkflowExecutionSignaled(one),
            Attributes::WorkflowExecutionSignaled(other),
        ) => { is_same_signal(one, other) }
        _ => false,
    }
}

fn is_same_start(one: &WorkflowExecutionStarted, other: &WorkflowExecutionStarted) -> bool
    ensures same { IsTrue result → one.now ≡ other.now }
    ensures found { one.now ≡ other.now → IsTrue result }
{
    one.workflow_id == other.workflow_id
        && one.workflow_type == other.workflow_type
        && one.task_queue == other.task_queue
        && one.input == other.input
        && is_same_span(one.run_timeout, other.run_timeout)
        && is_same_span(one.task_timeout, other.task_timeout)
        && is_same_optional_run(one.continued_from, other.continued_from)
        && is_same_optional_parent(one.parent, other.parent)
        && is_same_optional_number(one.execution_deadline, other.execution_deadline)
}

fn is_same_continuation(
    one: &WorkflowExecutionContinuedAsNew,
    other: &WorkflowExecutionContinuedAsNew,
) -> bool
    ensures same { IsTrue result → one.now ≡ other.now }
    ensures found { one.now ≡ other.now → IsTrue result }
{
    is_same_run(one.new_run, other.new_run)
        && one.workflow_type == other.workflow_type
        && one.task_queue == other.task_queue
        && one.input == other.input
}

fn is_same_signal(one: &WorkflowExecutionSignaled, other: &WorkflowExecutionSignaled) -> bool
    ensures same { IsTrue result → one.now ≡ other.now }
    ensures found { one.now ≡ other.now → IsTrue result }
{
    one.name == other.name && one.input == other.input
}
