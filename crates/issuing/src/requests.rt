//! What the commands of a run ask of other shards.
//!
//! Rules: X1.

ghost use Rattle.std.specs.Prelude.{◌≡◌, ◌<◌, IfOk, Some};
ghost use Rattle.wf_event.specs.declared.attributes.Attributes.TheVariants.{StartChildWorkflowExecutionInitiated as a_child, SignalExternalWorkflowExecutionInitiated as a_signal, RequestCancelExternalWorkflowExecutionInitiated as a_cancel};
ghost use Rattle.service_model.specs.Issued.{request_by, request_transfer, requests_of};

use event_pieces::Events;
use service_model_types::content::Setup;
use service_model_types::transfer::{
    CancelExternalTransfer, Sent, SignalExternalTransfer, StartChildTransfer, TransferContent,
};
use std::alloc::{AllocError, Global};
use wf_event::payloads::{
    RequestCancelExternalWorkflowExecutionInitiated, SignalExternalWorkflowExecutionInitiated,
    StartChildWorkflowExecutionInitiated,
};
use wf_event::{Attributes, Event};
use wf_event_values::RunId;

/// The start of a child that the event of this id asks for.
fn start_child(
    setup: &Setup,
    run: RunId,
    id: u64,
    asked: &StartChildWorkflowExecutionInitiated,
) -> Result<Sent, AllocError>
    requires { 0 < setup.now.shards }
    ensures { IfOk result (λ sent. Some sent ≡ request_by setup.now run id (a_child asked.now)) }
{
    Ok(Sent {
        to: setup.shard_of(&asked.workflow_id),
        content: TransferContent::StartChild(StartChildTransfer {
            parent_run: run,
            initiated: id,
            workflow_id: asked.workflow_id.clone()?,
            workflow_type: asked.workflow_type.clone()?,
            task_queue: asked.task_queue.clone()?,
            input: asked.input.clone()?,
            reuse: asked.reuse,
            run_timeout: asked.run_timeout,
            task_timeout: asked.task_timeout,
        }),
    })
}

/// The signal that the event of this id sends to another workflow.
fn signal_external(
    setup: &Setup,
    run: RunId,
    id: u64,
    asked: &SignalExternalWorkflowExecutionInitiated,
) -> Result<Sent, AllocError>
    requires { 0 < setup.now.shards }
    ensures { IfOk result (λ sent. Some sent ≡ request_by setup.now run id (a_signal asked.now)) }
{
    Ok(Sent {
        to: setup.shard_of(&asked.workflow_id),
        content: TransferContent::SignalExternal(SignalExternalTransfer {
            from_run: run,
            initiated: id,
            workflow_id: asked.workflow_id.clone()?,
            run: asked.run,
            name: asked.name.clone()?,
            input: asked.input.clone()?,
        }),
    })
}

/// The request to cancel that the event of this id sends to another workflow.
fn cancel_external(
    setup: &Setup,
    run: RunId,
    id: u64,
    asked: &RequestCancelExternalWorkflowExecutionInitiated,
) -> Result<Sent, AllocError>
    requires { 0 < setup.now.shards }
    ensures { IfOk result (λ sent. Some sent ≡ request_by setup.now run id (a_cancel asked.now)) }
{
    Ok(Sent {
        to: setup.shard_of(&asked.workflow_id),
        content: TransferContent::CancelExternal(CancelExternalTransfer {
            from_run: run,
            initiated: id,
            workflow_id: asked.workflow_id.clone()?,
            run: asked.run,
        }),
    })
}

/// The request that an event of this run sends, if it sends one.
fn request_transfer(setup: &Setup, run: RunId, event: &Event) -> Result<Option<Sent>, AllocError>
    requires { 0 < setup.now.shards }
    ensures { IfOk result (λ sent. sent ≡ request_transfer setup.now run event.now) }
{
    match &event.attributes {
        Attributes::StartChildWorkflowExecutionInitiated(asked) => {
            Ok(Some(start_child(setup, run, event.id, asked.get())?))
        }
        Attributes::SignalExternalWorkflowExecutionInitiated(asked) => {
            Ok(Some(signal_external(setup, run, event.id, asked.get())?))
        }
        Attributes::RequestCancelExternalWorkflowExecutionInitiated(asked) => {
            Ok(Some(cancel_external(setup, run, event.id, asked.get())?))
        }
        _ => Ok(None),
    }
}

/// The requests that events of this run send.
pub(crate) fn requests_of(
    alloc: Global,
    setup: &Setup,
    run: RunId,
    events: &Events<'_>,
) -> Result<Vec<Sent>, AllocError>
    requires { 0 < setup.now.shards }
    ensures { IfOk result (λ found. found.items ≡ requests_of setup.now run events.now) }
{
    let mut found = Vec::new(alloc);
    for event in events.again() {
        if let Some(sent) = request_transfer(setup, run, event)? {
            found.push(sent)?;
        }
    }
    Ok(found)
}
