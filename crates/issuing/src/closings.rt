//! What a run sends as it closes.
//!
//! Rules: X3, X4.

ghost use Rattle.std.specs.Prelude.{◌≡◌, ◌<◌, List, IfOk, Some, filter_map};
ghost use Rattle.wf_event.specs.declared.attributes.Attributes.TheVariants.{StartChildWorkflowExecutionInitiated as a_child};
ghost use Rattle.wf_event.specs.declared.event.Event.{Event as AnEvent};
ghost use Rattle.issuing.specs.Settled.{IsSettledBy, left_transfer};
ghost use Rattle.service_model.specs.Issued.{is_abandon, close_transfer_by, close_transfer, child_end, closed_transfer, children_left};

use crate::left::{is_left, settled_children};
use event_pieces::Events;
use indexmap::IndexSet;
use service_model_types::content::Setup;
use service_model_types::transfer::{ChildClosed, ChildStatus, CloseChild, Sent, TransferContent};
use std::alloc::{AllocError, Global};
use wf_event::payloads::{Parent, StartChildWorkflowExecutionInitiated};
use wf_event::{Attributes, Event};
use wf_event_values::{ParentClosePolicy, RunId, Text};

fn is_abandon(policy: ParentClosePolicy) -> bool
    ensures { result ≡ is_abandon policy }
{
    matches!(policy, ParentClosePolicy::Abandon)
}

/// What is asked of a child that the event of this id asked for: nothing where it is to be abandoned.
fn close_child(
    setup: &Setup,
    run: RunId,
    id: u64,
    asked: &StartChildWorkflowExecutionInitiated,
) -> Result<Option<Sent>, AllocError>
    requires { 0 < setup.now.shards }
    ensures { IfOk result (λ sent. sent ≡ close_transfer_by setup.now run id (a_child asked.now)) }
{
    if is_abandon(asked.parent_close) {
        return Ok(None);
    }
    Ok(Some(Sent {
        to: setup.shard_of(&asked.workflow_id),
        content: TransferContent::CloseChild(CloseChild {
            parent_run: run,
            initiated: id,
            workflow_id: asked.workflow_id.clone()?,
            policy: asked.parent_close,
        }),
    }))
}

/// What a closing parent asks of the child that an event asked for, if it asked for one.
fn close_transfer(setup: &Setup, run: RunId, event: &Event) -> Result<Option<Sent>, AllocError>
    requires { 0 < setup.now.shards }
    ensures { IfOk result (λ sent. sent ≡ close_transfer setup.now run event.now) }
{
    match &event.attributes {
        Attributes::StartChildWorkflowExecutionInitiated(asked) => {
            close_child(setup, run, event.id, asked.get())
        }
        _ => Ok(None),
    }
}

/// What is asked of the child that an event asked for, where that is not among those that were settled.
fn left_transfer(
    setup: &Setup,
    run: RunId,
    settled: &IndexSet<u64>,
    event: &Event,
) -> Result<Option<Sent>, AllocError>
    requires { 0 < setup.now.shards }
    ensures { (events : List AnEvent) → IsSettledBy events settled.now.keys
        → IfOk result (λ sent. sent ≡ left_transfer setup.now run events event.now) }
{
    if is_left(settled, event) {
        return close_transfer(setup, run, event);
    }
    Ok(None)
}

/// What a run asks of the children that it leaves, where this is its whole history.
pub(crate) fn left_transfers(
    alloc: Global,
    setup: &Setup,
    run: RunId,
    events: &Events<'_>,
) -> Result<Vec<Sent>, AllocError>
    requires { 0 < setup.now.shards }
    ensures { IfOk result (λ found. found.items
        ≡ filter_map (close_transfer setup.now run) (children_left events.now)) }
{
    let settled = settled_children(alloc, events)?;
    let mut found = Vec::new(alloc);
    for event in events.again() {
        if let Some(sent) = left_transfer(setup, run, &settled, event)? {
            found.push(sent)?;
        }
    }
    Ok(found)
}

/// How a child closed, and the text that it leaves, if an event closes it and no other run follows.
fn child_end(
    alloc: Global,
    attributes: &Attributes,
) -> Result<Option<(ChildStatus, Text)>, AllocError>
    ensures { IfOk result (λ end. end ≡ child_end attributes.now) }
{
    match attributes {
        Attributes::WorkflowExecutionCompleted(text) => {
            Ok(Some((ChildStatus::Completed, text.clone()?)))
        }
        Attributes::WorkflowExecutionFailed(text) => Ok(Some((ChildStatus::Failed, text.clone()?))),
        Attributes::WorkflowExecutionCanceled(text) => {
            Ok(Some((ChildStatus::Canceled, text.clone()?)))
        }
        Attributes::WorkflowExecutionTimedOut => {
            Ok(Some((ChildStatus::TimedOut, Text::empty(alloc))))
        }
        Attributes::WorkflowExecutionTerminated(_) => {
            Ok(Some((ChildStatus::Terminated, Text::empty(alloc))))
        }
        _ => Ok(None),
    }
}

/// What a child tells its parent of the event that closed it, if this is one.
fn closed_transfer(
    alloc: Global,
    run: RunId,
    parent: &Parent,
    event: &Event,
) -> Result<Option<Sent>, AllocError>
    ensures { IfOk result (λ sent. sent ≡ closed_transfer run (Some parent.now) event.now) }
{
    let Some((status, text)) = child_end(alloc, &event.attributes)? else {
        return Ok(None);
    };
    Ok(Some(Sent {
        to: parent.run.shard(),
        content: TransferContent::ChildClosed(ChildClosed {
            parent_run: parent.run,
            initiated: parent.event,
            run,
            status,
            text,
        }),
    }))
}

/// What a child tells its parent of these events.
pub(crate) fn closed_transfers(
    alloc: Global,
    run: RunId,
    parent: &Parent,
    events: &Events<'_>,
) -> Result<Vec<Sent>, AllocError>
    ensures { IfOk result (λ found. found.items
        ≡ filter_map (closed_transfer run (Some parent.now)) events.now) }
{
    let mut found = Vec::new(alloc);
    for event in events.again() {
        if let Some(sent) = closed_transfer(alloc, run, parent, event)? {
            found.push(sent)?;
        }
    }
    Ok(found)
}
