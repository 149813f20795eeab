//! That a transfer that there is, is within the limits of its types.

ghost use Rattle.wire_record_transfers.specs.Limits.{IsStartChild, IsChildStarted, IsChildStartFailed, IsChildClosed, IsCloseChild, IsSignalExternal, IsCancelExternal, IsExternalDone, IsContent, IsTransfer};

use service_model_types::transfer::{
    CancelExternalTransfer, ChildClosed, ChildStartFailed, ChildStarted, CloseChild,
    ExternalDoneTransfer, SignalExternalTransfer, StartChildTransfer, Transfer, TransferContent,
};
use wire_record_commands::{known_id, known_if_run, known_run, known_text};

fn known_start_child(content: &StartChildTransfer)
    ensures { IsStartChild content.now }
{
    known_run(content.parent_run);
    let _initiated = content.initiated;
    known_id(&content.workflow_id);
    known_text(&content.workflow_type);
    known_id(&content.task_queue);
    known_text(&content.input);
    let _run_timeout = content.run_timeout.millis();
    let _task_timeout = content.task_timeout.millis();
}

fn known_child_started(content: &ChildStarted)
    ensures { IsChildStarted content.now }
{
    known_run(content.parent_run);
    let _initiated = content.initiated;
    known_run(content.run);
}

fn known_child_start_failed(content: &ChildStartFailed)
    ensures { IsChildStartFailed content.now }
{
    known_run(content.parent_run);
    let _initiated = content.initiated;
}

fn known_child_closed(content: &ChildClosed)
    ensures { IsChildClosed content.now }
{
    known_run(content.parent_run);
    let _initiated = content.initiated;
    known_run(content.run);
    known_text(&content.text);
}

fn known_close_child(content: &CloseChild)
    ensures { IsCloseChild content.now }
{
    known_run(content.parent_run);
    let _initiated = content.initiated;
    known_id(&content.workflow_id);
}

fn known_signal_external(content: &SignalExternalTransfer)
    ensures { IsSignalExternal content.now }
{
    known_run(content.from_run);
    let _initiated = content.initiated;
    known_id(&content.workflow_id);
    known_if_run(content.run);
    known_text(&content.name);
    known_text(&content.input);
}

fn known_cancel_external(content: &CancelExternalTransfer)
    ensures { IsCancelExternal content.now }
{
    known_run(content.from_run);
    let _initiated = content.initiated;
    known_id(&content.workflow_id);
    known_if_run(content.run);
}

fn known_external_done(content: &ExternalDoneTransfer)
    ensures { IsExternalDone content.now }
{
    known_run(content.to_run);
    let _initiated = content.initiated;
}

fn known_content(content: &TransferContent)
    ensures { IsContent content.now }
{
    match content {
        TransferContent::StartChild(content) => known_start_child(content),
        TransferContent::ChildStarted(content) => known_child_started(content),
        TransferContent::ChildStartFailed(content) => known_child_start_failed(content),
        TransferContent::ChildClosed(content) => known_child_closed(content),
        TransferContent::CloseChild(content) => known_close_child(content),
        TransferContent::SignalExternal(content) => known_signal_external(content),
        TransferContent::CancelExternal(content) => known_cancel_external(content),
        TransferContent::ExternalDone(content) => known_external_done(content),
    }
}

/// That a transfer that there is, is within the limits of its types.
pub fn known_transfer(transfer: &Transfer)
    ensures { IsTransfer transfer.now }
{
    let _from = transfer.from;
    let _number = transfer.number;
    known_content(&transfer.content);
}
