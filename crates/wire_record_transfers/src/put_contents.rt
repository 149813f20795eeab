//! What transfers say, written.

ghost use Rattle.std.specs.Prelude.{◌≡◌, OnOk};
ghost use Rattle.wire_pages.specs.Pages.{sheet_of};
ghost use Rattle.wire_record_rows.specs.Rows.{add_rows};
ghost use Rattle.wire_record_transfers.specs.Trees.{start_child_rows, child_started_rows, child_start_failed_rows, child_closed_rows, close_child_rows, signal_external_rows, cancel_external_rows, external_done_rows, content_rows};

use crate::kinds::{child_status_name, external_kind_name};
use service_model_types::transfer::{
    CancelExternalTransfer, ChildClosed, ChildStartFailed, ChildStarted, CloseChild,
    ExternalDoneTransfer, SignalExternalTransfer, StartChildTransfer, TransferContent,
};
use std::alloc::AllocError;
use wire_pages::Page;
use wire_record_rows::put_if_run;

#[tactic(auto, unfolding(wire_record_rows::specs::Rows::add_row, wire_record_rows::specs::Rows::add_rows, crate::specs::Trees::start_child_rows))]
fn put_start_child(page: &mut Page, content: &StartChildTransfer) -> Result<(), AllocError>
    ensures { OnOk result (sheet_of page.new
        ≡ add_rows (start_child_rows content.now) (sheet_of page.old)) }
{
    page.number("initiated", content.initiated)?;
    page.text("input", content.input.as_str())?;
    page.run("parent_run", content.parent_run)?;
    page.text("reuse", content.reuse.name())?;
    page.number("run_timeout", content.run_timeout.millis())?;
    page.text("task_queue", content.task_queue.as_str())?;
    page.number("task_timeout", content.task_timeout.millis())?;
    page.text("workflow_id", content.workflow_id.as_str())?;
    page.text("workflow_type", content.workflow_type.as_str())
}

#[tactic(auto, unfolding(wire_record_rows::specs::Rows::add_row, wire_record_rows::specs::Rows::add_rows, crate::specs::Trees::child_started_rows))]
fn put_child_started(page: &mut Page, content: &ChildStarted) -> Result<(), AllocError>
    ensures { OnOk result (sheet_of page.new
        ≡ add_rows (child_started_rows content.now) (sheet_of page.old)) }
{
    page.number("initiated", content.initiated)?;
    page.run("parent_run", content.parent_run)?;
    page.run("run", content.run)
}

#[tactic(auto, unfolding(wire_record_rows::specs::Rows::add_row, wire_record_rows::specs::Rows::add_rows, crate::specs::Trees::child_start_failed_rows))]
fn put_child_start_failed(page: &mut Page, content: &ChildStartFailed) -> Result<(), AllocError>
    ensures { OnOk result (sheet_of page.new
        ≡ add_rows (child_start_failed_rows content.now) (sheet_of page.old)) }
{
    page.number("initiated", content.initiated)?;
    page.run("parent_run", content.parent_run)
}

#[tactic(auto, unfolding(wire_record_rows::specs::Rows::add_row, wire_record_rows::specs::Rows::add_rows, crate::specs::Trees::child_closed_rows))]
fn put_child_closed(page: &mut Page, content: &ChildClosed) -> Result<(), AllocError>
    ensures { OnOk result (sheet_of page.new
        ≡ add_rows (child_closed_rows content.now) (sheet_of page.old)) }
{
    page.number("initiated", content.initiated)?;
    page.run("parent_run", content.parent_run)?;
    page.run("run", content.run)?;
    page.text("status", child_status_name(content.status))?;
    page.text("text", content.text.as_str())
}

#[tactic(auto, unfolding(wire_record_rows::specs::Rows::add_row, wire_record_rows::specs::Rows::add_rows, crate::specs::Trees::close_child_rows))]
fn put_close_child(page: &mut Page, content: &CloseChild) -> Result<(), AllocError>
    ensures { OnOk result (sheet_of page.new
        ≡ add_rows (close_child_rows content.now) (sheet_of page.old)) }
{
    page.number("initiated", content.initiated)?;
    page.run("parent_run", content.parent_run)?;
    page.text("policy", content.policy.name())?;
    page.text("workflow_id", content.workflow_id.as_str())
}

#[tactic(auto, unfolding(wire_record_rows::specs::Rows::add_row, wire_record_rows::specs::Rows::add_rows, crate::specs::Trees::signal_external_rows))]
fn put_signal_external(page: &mut Page, content: &SignalExternalTransfer) -> Result<(), AllocError>
    ensures { OnOk result (sheet_of page.new
        ≡ add_rows (signal_external_rows content.now) (sheet_of page.old)) }
{
    page.run("from_run", content.from_run)?;
    page.number("initiated", content.initiated)?;
    page.text("input", content.input.as_str())?;
    page.text("name", content.name.as_str())?;
    put_if_run(page, "run", content.run)?;
    page.text("workflow_id", content.workflow_id.as_str())
}

#[tactic(auto, unfolding(wire_record_rows::specs::Rows::add_row, wire_record_rows::specs::Rows::add_rows, crate::specs::Trees::cancel_external_rows))]
fn put_cancel_external(page: &mut Page, content: &CancelExternalTransfer) -> Result<(), AllocError>
    ensures { OnOk result (sheet_of page.new
        ≡ add_rows (cancel_external_rows content.now) (sheet_of page.old)) }
{
    page.run("from_run", content.from_run)?;
    page.number("initiated", content.initiated)?;
    put_if_run(page, "run", content.run)?;
    page.text("workflow_id", content.workflow_id.as_str())
}

#[tactic(auto, unfolding(wire_record_rows::specs::Rows::add_row, wire_record_rows::specs::Rows::add_rows, crate::specs::Trees::external_done_rows))]
fn put_external_done(page: &mut Page, content: &ExternalDoneTransfer) -> Result<(), AllocError>
    ensures { OnOk result (sheet_of page.new
        ≡ add_rows (external_done_rows content.now) (sheet_of page.old)) }
{
    page.boolean("done", content.done)?;
    page.number("initiated", content.initiated)?;
    page.text("kind", external_kind_name(content.kind))?;
    page.run("to_run", content.to_run)
}

pub(crate) fn put_content_rows(page: &mut Page, content: &TransferContent) -> Result<(), AllocError>
    ensures { OnOk result (sheet_of page.new
        ≡ add_rows (content_rows content.now) (sheet_of page.old)) }
{
    match content {
        TransferContent::StartChild(content) => put_start_child(page, content),
        TransferContent::ChildStarted(content) => put_child_started(page, content),
        TransferContent::ChildStartFailed(content) => put_child_start_failed(page, content),
        TransferContent::ChildClosed(content) => put_child_closed(page, content),
        TransferContent::CloseChild(content) => put_close_child(page, content),
        TransferContent::SignalExternal(content) => put_signal_external(page, content),
        TransferContent::CancelExternal(content) => put_cancel_external(page, content),
        TransferContent::ExternalDone(content) => put_external_done(page, content),
    }
}
