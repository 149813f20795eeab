//! What a run gets by a transfer.
//!
//! Rules: X3, X6.

ghost use Rattle.std.specs.Prelude.{◌≡◌, ◌∷◌, [], IfOk, codes};
ghost use Rattle.service_model.specs.Deliveries.{child_closed_event, external_event};
ghost use Rattle.service_model.specs.Journal.{plain};
ghost use Rattle.service_model.specs.Outcome.{outside};

use mutable_state::plain;
use mutable_state_keeper::{KeepsRun, Run};
use service_model_types::journal::Fact;
use service_model_types::transfer::{ChildClosed, ChildStatus, ExternalDoneTransfer, ExternalKind};
use shard_steps::from_outside;
use std::alloc::{AllocError, Global};
use wf_event::payloads::{ChildEnd, ChildEndText, ExternalDone, ExternalFailed};
use wf_event::{Attributes, Boxed};
use wf_event_values::{Cause, Field, Id, Items, Text};

/// The facts of one event from outside, with a workflow task where none is scheduled or started.
pub(crate) fn event_facts<T: KeepsRun>(
    alloc: Global,
    run: &Run<T>,
    event: Attributes,
) -> Result<Items<Fact>, AllocError>
    ensures { IfOk result (λ facts. facts ≡ outside run.now.state (plain event ∷ [])) }
{
    let mut facts = Vec::new(alloc);
    facts.push(plain(event))?;
    from_outside(alloc, run, facts)
}

/// The event of a child that closed.
pub(crate) fn child_closed_event(
    alloc: Global,
    closed: &ChildClosed,
) -> Result<Attributes, AllocError>
    ensures { IfOk result (λ event.
        event ≡ child_closed_event closed.now closed.now.status) }
{
    let end = ChildEnd {
        initiated: closed.initiated,
        run: closed.run,
    };
    match closed.status {
        ChildStatus::Completed => Ok(Attributes::ChildWorkflowExecutionCompleted(child_end_text(
            alloc, closed,
        )?)),
        ChildStatus::Failed => Ok(Attributes::ChildWorkflowExecutionFailed(child_end_text(
            alloc, closed,
        )?)),
        ChildStatus::Canceled => Ok(Attributes::ChildWorkflowExecutionCanceled(child_end_text(
            alloc, closed,
        )?)),
        ChildStatus::TimedOut => Ok(Attributes::ChildWorkflowExecutionTimedOut(end)),
        ChildStatus::Terminated => Ok(Attributes::ChildWorkflowExecutionTerminated(end)),
    }
}

/// Which child closed, with what it leaves.
fn child_end_text(alloc: Global, closed: &ChildClosed) -> Result<Boxed<ChildEndText>, AllocError>
    ensures { IfOk result (λ end. end ≡ record {
      initiated = closed.now.initiated;
      run = closed.now.run;
      text = closed.now.text;
    }) }
{
    let fields = ChildEndText {
        initiated: closed.initiated,
        run: closed.run,
        text: closed.text.clone()?,
    };
    Boxed::new(alloc, fields)
}

/// The event of an external request that was answered, which asked something of this workflow.
pub(crate) fn external_event(done: &ExternalDoneTransfer, workflow_id: Id) -> Attributes
    ensures { result ≡ external_event done.now done.now.kind done.now.done workflow_id }
{
    let initiated = done.initiated;
    let failed = ExternalFailed {
        initiated,
        cause: Cause::ExternalWorkflowExecutionNotFound,
    };
    let reached = ExternalDone {
        initiated,
        workflow_id,
    };
    match (done.kind, done.done) {
        (ExternalKind::Signal, true) => Attributes::ExternalWorkflowExecutionSignaled(reached),
        (ExternalKind::Signal, false) => {
            Attributes::SignalExternalWorkflowExecutionFailed(failed)
        }
        (ExternalKind::Cancel, true) => {
            Attributes::ExternalWorkflowExecutionCancelRequested(reached)
        }
        (ExternalKind::Cancel, false) => {
            Attributes::RequestCancelExternalWorkflowExecutionFailed(failed)
        }
    }
}

/// The reason of a termination by a parent that closed.
pub(crate) fn parent_reason(alloc: Global) -> Result<Text, AllocError>
    ensures { IfOk result (λ reason. reason ≡ codes "parent close") }
{
    let Ok(reason) = Text::new(alloc, Field::Reason, "parent close") else {
        return Err(AllocError);
    };
    Ok(reason)
}
