//! Whether two events say the same about a workflow task.

ghost use Rattle.std.specs.Prelude.{◌≡◌, IsTrue};
ghost use Rattle.event_sameness.specs.Groups.{group, OfTask};

use crate::names::is_same_cause;
use wf_event::Attributes;
use wf_event::payloads::{TaskEnd, WorkflowTaskFailed, WorkflowTaskScheduled};

/// Whether both are of one kind that speaks of a workflow task, and carry the same.
#[tactic(auto, unfolding(crate::specs::Groups::group))]
pub(crate) fn is_same_of_task(one: &Attributes, other: &Attributes) -> bool
    ensures same { IsTrue result → one.now ≡ other.now }
    ensures found { group one.now ≡ OfTask → one.now ≡ other.now → IsTrue result }
{
    match (one, other) {
        (Attributes::WorkflowTaskScheduled(one), Attributes::WorkflowTaskScheduled(other)) => {
            is_same_task_schedule(one, other)
        }
        (Attributes::WorkflowTaskStarted(one), Attributes::WorkflowTaskStarted(other)) => {
            *one == *other
        }
        (Attributes::WorkflowTaskCompleted(one), Attributes::WorkflowTaskCompleted(other)) => {
            is_same_task_end(*one, *other)
        }
        (Attributes::WorkflowTaskTimedOut(one), Attributes::WorkflowTaskTimedOut(other)) => {
            is_same_task_end(*one, *other)
        }
        (Attributes::WorkflowTaskFailed(one), Attributes::WorkflowTaskFailed(other)) => {
            is_same_task_failure(one, other)
        }
        _ => false,
    }
}

fn is_same_task_schedule(one: &WorkflowTaskScheduled, other: &WorkflowTaskScheduled) -> bool
    ensures same { IsTrue result → one.now ≡ other.now }
    ensures found { one.now ≡ other.now → IsTrue result }
{
    one.attempt == other.attempt && one.task_queue == other.task_queue
}

fn is_same_task_end(one: TaskEnd, other: TaskEnd) -> bool
    ensures same { IsTrue result → one ≡ other }
    ensures found { one ≡ other → IsTrue result }
{
    one.scheduled == other.scheduled && one.started == other.started
}

fn is_same_task_failure(one: &WorkflowTaskFailed, other: &WorkflowTaskFailed) -> bool
    ensures same { IsTrue result → one.now ≡ other.now }
    ensures found { one.now ≡ other.now → IsTrue result }
{
    one.scheduled == other.scheduled
        && one.started == other.started
        && is_same_cause(one.cause, other.cause)
        && one.message == other.message
}
