//! Copies of what transfers say.

ghost use Rattle.std.specs.Prelude.{◌≡◌, IfOk};

use service_model_types::transfer::{
    CancelExternalTransfer, ChildClosed, ChildStartFailed, ChildStarted, CloseChild,
    ExternalDoneTransfer, SignalExternalTransfer, StartChildTransfer, TransferContent,
};
use std::alloc::AllocError;

/// A copy of what a transfer says.
pub fn copied(content: &TransferContent) -> Result<TransferContent, AllocError>
    ensures { IfOk result (λ copy. copy ≡ content.now) }
{
    match content {
        TransferContent::StartChild(c) => start_child(c),
        TransferContent::ChildStarted(c) => Ok(child_started(c)),
        TransferContent::ChildStartFailed(c) => Ok(child_start_failed(c)),
        TransferContent::ChildClosed(c) => child_closed(c),
        TransferContent::CloseChild(c) => close_child(c),
        TransferContent::SignalExternal(c) => signal_external(c),
        TransferContent::CancelExternal(c) => cancel_external(c),
        TransferContent::ExternalDone(c) => Ok(external_done(c)),
    }
}

fn start_child(c: &StartChildTransfer) -> Result<TransferContent, AllocError>
    ensures { IfOk result (λ copy. copy ≡ TransferContent.StartChild c.now) }
{
    Ok(TransferContent::StartChild(StartChildTransfer {
        parent_run: c.parent_run,
        initiated: c.initiated,
        workflow_id: c.workflow_id.clone()?,
        workflow_type: c.workflow_type.clone()?,
        task_queue: c.task_queue.clone()?,
        input: c.input.clone()?,
        reuse: c.reuse,
        run_timeout: c.run_timeout,
        task_timeout: c.task_timeout,
    }))
}

fn child_started(c: &ChildStarted) -> TransferContent
    ensures { result ≡ TransferContent.ChildStarted c.now }
{
    TransferContent::ChildStarted(ChildStarted {
        parent_run: c.parent_run,
        initiated: c.initiated,
        run: c.run,
    })
}

fn child_start_failed(c: &ChildStartFailed) -> TransferContent
    ensures { result ≡ TransferContent.ChildStartFailed c.now }
{
    TransferContent::ChildStartFailed(ChildStartFailed {
        parent_run: c.parent_run,
        initiated: c.initiated,
    })
}

fn child_closed(c: &ChildClosed) -> Result<TransferContent, AllocError>
    ensures { IfOk result (λ copy. copy ≡ TransferContent.ChildClosed c.now) }
{
    Ok(TransferContent::ChildClosed(ChildClosed {
        parent_run: c.parent_run,
        initiated: c.initiated,
        run: c.run,
        status: c.status,
        text: c.text.clone()?,
    }))
}

fn close_child(c: &CloseChild) -> Result<TransferContent, AllocError>
    ensures { IfOk result (λ copy. copy ≡ TransferContent.CloseChild c.now) }
{
    Ok(TransferContent::CloseChild(CloseChild {
        parent_run: c.parent_run,
        initiated: c.initiated,
        workflow_id: c.workflow_id.clone()?,
        policy: c.policy,
    }))
}

fn signal_external(c: &SignalExternalTransfer) -> Result<TransferContent, AllocError>
    ensures { IfOk result (λ copy. copy ≡ TransferContent.SignalExternal c.now) }
{
    Ok(TransferContent::SignalExternal(SignalExternalTransfer {
        from_run: c.from_run,
        initiated: c.initiated,
        workflow_id: c.workflow_id.clone()?,
        run: c.run,
        name: c.name.clone()?,
        input: c.input.clone()?,
    }))
}

fn cancel_external(c: &CancelExternalTransfer) -> Result<TransferContent, AllocError>
    ensures { IfOk result (λ copy. copy ≡ TransferContent.CancelExternal c.now) }
{
    Ok(TransferContent::CancelExternal(CancelExternalTransfer {
        from_run: c.from_run,
        initiated: c.initiated,
        workflow_id: c.workflow_id.clone()?,
        run: c.run,
    }))
}

fn external_done(c: &ExternalDoneTransfer) -> TransferContent
    ensures { result ≡ TransferContent.ExternalDone c.now }
{
    TransferContent::ExternalDone(ExternalDoneTransfer {
        to_run: c.to_run,
        initiated: c.initiated,
        kind: c.kind,
        done: c.done,
    })
}
