//! What the run that follows one that continues as new is like: what the command leaves out is as it was.
//!
//! Rules: W12.

ghost use Rattle.std.specs.Prelude.{◌≡◌, IfOk, unwrap_or};
ghost use Rattle.task_completion.specs.Judging.{continued_as_new};

use std::alloc::{AllocError, Global};
use wf_command::command::ContinueAsNew;
use wf_event::payloads::{WorkflowExecutionContinuedAsNew, WorkflowExecutionStarted};
use wf_event::{Attributes, Boxed};
use wf_event_values::{Id, RunId, Text};

/// The queue of the workflow tasks of the run that follows: the command's, or that of the run before.
pub fn queue_after<'a>(command: &'a ContinueAsNew, started: &'a WorkflowExecutionStarted) -> &'a Id
    ensures { result.now ≡ unwrap_or command.now.task_queue started.now.task_queue }
{
    match &command.task_queue {
        Some(queue) => queue,
        None => &started.task_queue,
    }
}

/// The workflow type of the run that follows: the command's, or that of the run before.
pub fn type_after<'a>(command: &'a ContinueAsNew, started: &'a WorkflowExecutionStarted) -> &'a Text
    ensures { result.now ≡ unwrap_or command.now.workflow_type started.now.workflow_type }
{
    match &command.workflow_type {
        Some(workflow_type) => workflow_type,
        None => &started.workflow_type,
    }
}

/// The closing event of a run that began like this, and is followed by that one.
pub(crate) fn continued_as_new(
    alloc: Global,
    command: &ContinueAsNew,
    started: &WorkflowExecutionStarted,
    next: RunId,
) -> Result<Attributes, AllocError>
    ensures { IfOk result (λ a. a ≡ continued_as_new command.now started.now next) }
{
    let workflow_type = type_after(command, started).clone()?;
    let task_queue = queue_after(command, started).clone()?;
    let input = command.input.clone()?;
    let fields = WorkflowExecutionContinuedAsNew {
        new_run: next,
        workflow_type,
        task_queue,
        input,
    };
    Ok(Attributes::WorkflowExecutionContinuedAsNew(Boxed::new(alloc, fields)?))
}
