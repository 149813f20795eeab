//! Whether two events say the same about a request to another workflow.

ghost use Rattle.std.specs.Prelude.{◌≡◌, IsTrue};
ghost use Rattle.event_sameness.specs.Groups.{group, OfExternal};

use crate::names::is_same_cause;
use crate::values::is_same_optional_run;
use wf_event::Attributes;
use wf_event::payloads::{
    ExternalDone, ExternalFailed, RequestCancelExternalWorkflowExecutionInitiated,
    SignalExternalWorkflowExecutionInitiated,
};

/// Whether both are of one kind that speaks of a request to another workflow, and carry the same.
#[tactic(auto, unfolding(crate::specs::Groups::group))]
pub(crate) fn is_same_of_external(one: &Attributes, other: &Attributes) -> bool
    ensures same { IsTrue result → one.now ≡ other.now }
    ensures found { group one.now ≡ OfExternal → one.now ≡ other.now → IsTrue result }
{
    match (one, other) {
        (
            Attributes::SignalExternalWorkflowExecutionInitiated(one),
            Attributes::SignalExternalWorkflowExecutionInitiated(other),
        ) => { is_same_external_signal(one.get(), other.get()) }
        (
            Attributes::RequestCancelExternalWorkflowExecutionInitiated(one),
            Attributes::RequestCancelExternalWorkflowExecutionInitiated(other),
        ) => { is_same_external_cancel(one.get(), other.get()) }
        (
            Attributes::SignalExternalWorkflowExecutionFailed(one),
            Attributes::SignalExternalWorkflowExecutionFailed(other),
        ) => { is_same_external_failure(*one, *other) }
        (
            Attributes::RequestCancelExternalWorkflowExecutionFailed(one),
            Attributes::RequestCancelExternalWorkflowExecutionFailed(other),
        ) => { is_same_external_failure(*one, *other) }
        (
            Attributes::ExternalWorkflowExecutionSignaled(one),
            Attributes::ExternalWorkflowExecutionSignaled(other),
        ) => { is_same_external_done(one, other) }
        (
            Attributes::ExternalWorkflowExecutionCancelRequested(one),
            Attributes::ExternalWorkflowExecutionCancelRequested(other),
        ) => { is_same_external_done(one, other) }
        _ => false,
    }
}

fn is_same_external_signal(
    one: &SignalExternalWorkflowExecutionInitiated,
    other: &SignalExternalWorkflowExecutionInitiated,
) -> bool
    ensures same { IsTrue result → one.now ≡ other.now }
    ensures found { one.now ≡ other.now → IsTrue result }
{
    one.workflow_id == other.workflow_id
        && is_same_optional_run(one.run, other.run)
        && one.name == other.name
        && one.input == other.input
}

fn is_same_external_cancel(
    one: &RequestCancelExternalWorkflowExecutionInitiated,
    other: &RequestCancelExternalWorkflowExecutionInitiated,
) -> bool
    ensures same { IsTrue result → one.now ≡ other.now }
    ensures found { one.now ≡ other.now → IsTrue result }
{
    one.workflow_id == other.workflow_id && is_same_optional_run(one.run, other.run)
}

fn is_same_external_failure(one: ExternalFailed, other: ExternalFailed) -> bool
    ensures same { IsTrue result → one ≡ other }
    ensures found { one ≡ other → IsTrue result }
{
    one.initiated == other.initiated && is_same_cause(one.cause, other.cause)
}

fn is_same_external_done(one: &ExternalDone, other: &ExternalDone) -> bool
    ensures same { IsTrue result → one.now ≡ other.now }
    ensures found { one.now ≡ other.now → IsTrue result }
{
    one.initiated == other.initiated && one.workflow_id == other.workflow_id
}
