//! What commands ask of other workflows: that children start, that others are signaled or asked to cancel.

ghost use Rattle.std.specs.Prelude.{◌≡◌, IfOk};
ghost use Rattle.task_completion.specs.Outward.{child_asked, external_signal, external_cancel};

use service_model_types::limits::used_task_timeout;
use std::alloc::{AllocError, Global};
use wf_command::command::{RequestCancelExternal, SignalExternal, StartChild};
use wf_event::payloads::{
    RequestCancelExternalWorkflowExecutionInitiated, SignalExternalWorkflowExecutionInitiated,
    StartChildWorkflowExecutionInitiated,
};
use wf_event::{Attributes, Boxed};

/// How much is pending of what a run asked of other workflows.
#[derive(Clone, Copy)]
pub struct Outward {
    pub children: u64,
    pub signals: u64,
    pub cancels: u64,
}

/// The event of a child that is to start.
pub(crate) fn child_asked(alloc: Global, command: &StartChild) -> Result<Attributes, AllocError>
    ensures { IfOk result (λ a. a ≡ child_asked command.now) }
{
    let fields = StartChildWorkflowExecutionInitiated {
        workflow_id: command.workflow_id.clone()?,
        workflow_type: command.workflow_type.clone()?,
        task_queue: command.task_queue.clone()?,
        input: command.input.clone()?,
        reuse: command.reuse,
        parent_close: command.parent_close,
        run_timeout: command.run_timeout,
        task_timeout: used_task_timeout(command.task_timeout),
    };
    Ok(Attributes::StartChildWorkflowExecutionInitiated(Boxed::new(alloc, fields)?))
}

/// The event of a signal to another workflow.
pub(crate) fn external_signal(
    alloc: Global,
    command: &SignalExternal,
) -> Result<Attributes, AllocError>
    ensures { IfOk result (λ a. a ≡ external_signal command.now) }
{
    let workflow_id = command.workflow_id.clone()?;
    let name = command.name.clone()?;
    let input = command.input.clone()?;
    let fields = SignalExternalWorkflowExecutionInitiated {
        workflow_id,
        run: command.run,
        name,
        input,
    };
    Ok(Attributes::SignalExternalWorkflowExecutionInitiated(Boxed::new(alloc, fields)?))
}

/// The event of a request to another workflow to cancel.
pub(crate) fn external_cancel(
    alloc: Global,
    command: &RequestCancelExternal,
) -> Result<Attributes, AllocError>
    ensures { IfOk result (λ a. a ≡ external_cancel command.now) }
{
    let workflow_id = command.workflow_id.clone()?;
    let fields = RequestCancelExternalWorkflowExecutionInitiated {
        workflow_id,
        run: command.run,
    };
    Ok(Attributes::RequestCancelExternalWorkflowExecutionInitiated(Boxed::new(alloc, fields)?))
}
