//! The commands that make other runs or reach them.

ghost use Rattle.std.specs.Prelude.{◌≡◌, OnOk};
ghost use Rattle.wire_pages.specs.Pages.{sheet_of};
ghost use Rattle.wire_record_rows.specs.Rows.{add_rows};
ghost use Rattle.wire_record_commands.specs.Trees.{continue_rows, child_rows, external_signal_rows, external_cancel_rows};

use std::alloc::AllocError;
use wf_command::command::{ContinueAsNew, RequestCancelExternal, SignalExternal, StartChild};
use wire_pages::Page;
use wire_record_rows::{put_if_count, put_if_id, put_if_run, put_if_text};

#[tactic(auto, unfolding(wire_record_rows::specs::Rows::add_row, wire_record_rows::specs::Rows::add_rows, crate::specs::Trees::continue_rows))]
pub(crate) fn put_continue(page: &mut Page, command: &ContinueAsNew) -> Result<(), AllocError>
    ensures { OnOk result (sheet_of page.new
        ≡ add_rows (continue_rows command.now) (sheet_of page.old)) }
{
    page.text("input", command.input.as_str())?;
    put_if_count(page, "run_timeout", command.run_timeout)?;
    put_if_id(page, "task_queue", &command.task_queue)?;
    put_if_count(page, "task_timeout", command.task_timeout)?;
    page.text("type", "ContinueAsNewWorkflowExecution")?;
    put_if_text(page, "workflow_type", &command.workflow_type)
}

#[tactic(auto, unfolding(wire_record_rows::specs::Rows::add_row, wire_record_rows::specs::Rows::add_rows, crate::specs::Trees::child_rows))]
pub(crate) fn put_child(page: &mut Page, command: &StartChild) -> Result<(), AllocError>
    ensures { OnOk result (sheet_of page.new
        ≡ add_rows (child_rows command.now) (sheet_of page.old)) }
{
    page.text("input", command.input.as_str())?;
    page.text("parent_close", command.parent_close.name())?;
    page.text("reuse", command.reuse.name())?;
    page.number("run_timeout", command.run_timeout.millis())?;
    page.text("task_queue", command.task_queue.as_str())?;
    page.number("task_timeout", command.task_timeout.millis())?;
    page.text("type", "StartChildWorkflowExecution")?;
    page.text("workflow_id", command.workflow_id.as_str())?;
    page.text("workflow_type", command.workflow_type.as_str())
}

#[tactic(auto, unfolding(wire_record_rows::specs::Rows::add_row, wire_record_rows::specs::Rows::add_rows, crate::specs::Trees::external_signal_rows))]
pub(crate) fn put_external_signal(
    page: &mut Page,
    command: &SignalExternal,
) -> Result<(), AllocError>
    ensures { OnOk result (sheet_of page.new
        ≡ add_rows (external_signal_rows command.now) (sheet_of page.old)) }
{
    page.text("input", command.input.as_str())?;
    page.text("name", command.name.as_str())?;
    put_if_run(page, "run", command.run)?;
    page.text("type", "SignalExternalWorkflowExecution")?;
    page.text("workflow_id", command.workflow_id.as_str())
}

#[tactic(auto, unfolding(wire_record_rows::specs::Rows::add_row, wire_record_rows::specs::Rows::add_rows, crate::specs::Trees::external_cancel_rows))]
pub(crate) fn put_external_cancel(
    page: &mut Page,
    command: &RequestCancelExternal,
) -> Result<(), AllocError>
    ensures { OnOk result (sheet_of page.new
        ≡ add_rows (external_cancel_rows command.now) (sheet_of page.old)) }
{
    put_if_run(page, "run", command.run)?;
    page.text("type", "RequestCancelExternalWorkflowExecution")?;
    page.text("workflow_id", command.workflow_id.as_str())
}
