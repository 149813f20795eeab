//! Commands, written with every key of their type.

ghost use Rattle.std.specs.Prelude.{◌≡◌, OnOk, codes, map};
ghost use Rattle.wire_pages.specs.Pages.{sheet_of, add_member, add_value};
ghost use Rattle.wire_record_rows.specs.Rows.{add_rows};
ghost use Rattle.wire_record_commands.specs.Trees.{activity_rows, timer_rows, marker_rows, one_text, cancel_activity_rows, command_rows, command_tree, command_list};

use crate::put_external::{put_child, put_continue, put_external_cancel, put_external_signal};
use crate::put_policy::put_policy;
use std::alloc::AllocError;
use wf_command::Command;
use wf_command::command::{RecordMarker, ScheduleActivityTask, StartTimer};
use wire_pages::Page;

#[tactic(auto, unfolding(wire_record_rows::specs::Rows::add_row, wire_record_rows::specs::Rows::add_rows, crate::specs::Trees::activity_rows))]
fn put_activity(
    page: &mut Page,
    command: &ScheduleActivityTask,
    factor: Option<u64>,
) -> Result<(), AllocError>
    ensures { OnOk result (sheet_of page.new
        ≡ add_rows (activity_rows factor command.now) (sheet_of page.old)) }
{
    page.text("activity_id", command.activity_id.as_str())?;
    page.text("activity_type", command.activity_type.as_str())?;
    page.number("heartbeat", command.heartbeat.millis())?;
    page.text("input", command.input.as_str())?;
    put_policy(page, &command.retry, factor)?;
    page.number("schedule_to_close", command.schedule_to_close.millis())?;
    page.number("schedule_to_start", command.schedule_to_start.millis())?;
    page.number("start_to_close", command.start_to_close.millis())?;
    page.text("task_queue", command.task_queue.as_str())?;
    page.text("type", "ScheduleActivityTask")
}

#[tactic(auto, unfolding(wire_record_rows::specs::Rows::add_row, wire_record_rows::specs::Rows::add_rows, crate::specs::Trees::timer_rows))]
fn put_timer(page: &mut Page, command: &StartTimer) -> Result<(), AllocError>
    ensures { OnOk result (sheet_of page.new
        ≡ add_rows (timer_rows command.now) (sheet_of page.old)) }
{
    page.number("duration", command.duration.millis())?;
    page.text("timer_id", command.timer_id.as_str())?;
    page.text("type", "StartTimer")
}

#[tactic(auto, unfolding(wire_record_rows::specs::Rows::add_row, wire_record_rows::specs::Rows::add_rows, crate::specs::Trees::marker_rows))]
fn put_marker(page: &mut Page, command: &RecordMarker) -> Result<(), AllocError>
    ensures { OnOk result (sheet_of page.new
        ≡ add_rows (marker_rows command.now) (sheet_of page.old)) }
{
    page.text("details", command.details.as_str())?;
    page.text("name", command.name.as_str())?;
    page.text("type", "RecordMarker")
}

/// A command of one text.
#[tactic(auto, unfolding(wire_record_rows::specs::Rows::add_row, wire_record_rows::specs::Rows::add_rows))]
fn put_one(page: &mut Page, key: &str, text: &str, of: &str) -> Result<(), AllocError>
    ensures { OnOk result (sheet_of page.new
        ≡ add_rows (one_text key.now text.now of.now) (sheet_of page.old)) }
{
    page.text(key, text)?;
    page.text("type", of)
}

#[tactic(auto, unfolding(wire_record_rows::specs::Rows::add_row, wire_record_rows::specs::Rows::add_rows))]
fn put_cancel_activity(page: &mut Page, event: u64) -> Result<(), AllocError>
    ensures { OnOk result (sheet_of page.new
        ≡ add_rows (cancel_activity_rows event) (sheet_of page.old)) }
{
    page.number("scheduled", event)?;
    page.text("type", "RequestCancelActivityTask")
}

fn put_rows(page: &mut Page, command: &Command, factor: Option<u64>) -> Result<(), AllocError>
    ensures { OnOk result (sheet_of page.new
        ≡ add_rows (command_rows factor command.now) (sheet_of page.old)) }
{
    match command {
        Command::ScheduleActivityTask(command) => put_activity(page, command, factor),
        Command::RequestCancelActivityTask(event) => put_cancel_activity(page, *event),
        Command::StartTimer(command) => put_timer(page, command),
        Command::CancelTimer(timer) => put_one(page, "timer_id", timer.as_str(), "CancelTimer"),
        Command::RecordMarker(command) => put_marker(page, command),
        Command::CompleteWorkflowExecution(text) => {
            put_one(page, "result", text.as_str(), "CompleteWorkflowExecution")
        }
        Command::FailWorkflowExecution(text) => {
            put_one(page, "message", text.as_str(), "FailWorkflowExecution")
        }
        Command::CancelWorkflowExecution(text) => {
            put_one(page, "details", text.as_str(), "CancelWorkflowExecution")
        }
        Command::ContinueAsNewWorkflowExecution(command) => put_continue(page, command),
        Command::StartChildWorkflowExecution(command) => put_child(page, command),
        Command::SignalExternalWorkflowExecution(command) => put_external_signal(page, command),
        Command::RequestCancelExternalWorkflowExecution(command) => {
            put_external_cancel(page, command)
        }
    }
}

/// A command, with a factor in the place of its policy's coefficient where there is one.
pub(crate) fn put_command(
    page: &mut Page,
    command: &Command,
    factor: Option<u64>,
) -> Result<(), AllocError>
    ensures { OnOk result (sheet_of page.new
        ≡ add_value (command_tree factor command.now) (sheet_of page.old)) }
{
    page.begin_object()?;
    put_rows(page, command, factor)?;
    page.end_object()
}

/// Commands under a key.
#[tactic(auto, unfolding(wire_pages::specs::Pages::add_items, wire_pages::specs::Pages::add_member))]
pub fn put_commands(page: &mut Page, name: &str, commands: &[Command]) -> Result<(), AllocError>
    ensures { OnOk result (sheet_of page.new
        ≡ add_member name.now (command_list commands.now) (sheet_of page.old)) }
{
    page.key(name)?;
    page.begin_array()?;
    for command in commands {
        put_command(page, command, None)?;
    }
    page.end_array()
}
