//! The members of a reply, by its answer, in the order of their keys.
//!
//! Rules: L7, L10.
#![tactic(auto, unfolding(wire_pages::specs::Pages::add_members, crate::specs::Answers::history_members, crate::specs::Answers::count_members, crate::specs::Answers::description_members, crate::specs::Answers::fired_members))]

ghost use Rattle.std.specs.Prelude.{◌≡◌, OnOk};
ghost use Rattle.wire_pages.specs.Pages.{sheet_of, add_members};
ghost use Rattle.wire_replies.specs.Answers.{with_run, with_number, task_failed_members, activity_failed_members, retrying_members, heartbeat_members, history_members, description_members, fired_members, acknowledged_name, answer_members, line_member, ok_member};

use crate::tasks::{put_activity_task, put_workflow_task};
use service_model_types::answer::{Acknowledged, Answer, Description, Fired, History, Retrying};
use std::alloc::AllocError;
use wf_event_values::{Cause, RetryState, RunId};
use wire_events::put_event_list;
use wire_pages::Page;

fn put_ok(page: &mut Page, line: u64, ok: &str) -> Result<(), AllocError>
    ensures { OnOk result (sheet_of page.new
        ≡ add_members (ok_member ok.now (line_member line)) (sheet_of page.old)) }
{
    page.number("line", line)?;
    page.text("ok", ok)
}

fn put_with_run(page: &mut Page, line: u64, ok: &str, run: RunId) -> Result<(), AllocError>
    ensures { OnOk result (sheet_of page.new
        ≡ add_members (with_run ok.now run (line_member line)) (sheet_of page.old)) }
{
    put_ok(page, line, ok)?;
    page.run("run", run)
}

fn put_with_number(page: &mut Page, line: u64, ok: &str, number: u64) -> Result<(), AllocError>
    ensures { OnOk result (sheet_of page.new
        ≡ add_members (with_number ok.now number (line_member line)) (sheet_of page.old)) }
{
    page.number("line", line)?;
    page.number("number", number)?;
    page.text("ok", ok)
}

fn put_task_failed(page: &mut Page, line: u64, cause: Cause) -> Result<(), AllocError>
    ensures { OnOk result (sheet_of page.new
        ≡ add_members (task_failed_members cause (line_member line)) (sheet_of page.old)) }
{
    page.text("cause", cause.name())?;
    put_ok(page, line, "task_failed")
}

fn put_activity_failed(page: &mut Page, line: u64, state: RetryState) -> Result<(), AllocError>
    ensures { OnOk result (sheet_of page.new
        ≡ add_members (activity_failed_members state (line_member line)) (sheet_of page.old)) }
{
    put_ok(page, line, "failed")?;
    page.text("retry", state.name())
}

fn put_retrying(page: &mut Page, line: u64, retrying: Retrying) -> Result<(), AllocError>
    ensures { OnOk result (sheet_of page.new
        ≡ add_members (retrying_members retrying (line_member line)) (sheet_of page.old)) }
{
    page.number("attempt", u64::from(retrying.attempt))?;
    put_ok(page, line, "retrying")?;
    page.number("ready", retrying.ready)
}

fn put_heartbeat(page: &mut Page, line: u64, cancel_requested: bool) -> Result<(), AllocError>
    ensures { OnOk result (sheet_of page.new
        ≡ add_members (heartbeat_members cancel_requested (line_member line)) (sheet_of page.old)) }
{
    page.boolean("cancel_requested", cancel_requested)?;
    put_ok(page, line, "heartbeat")
}

/// The history's events, from its own list.
fn put_history(page: &mut Page, line: u64, history: &History) -> Result<(), AllocError>
    ensures { OnOk result (sheet_of page.new
        ≡ add_members (history_members history.now (line_member line)) (sheet_of page.old)) }
{
    put_event_list(page, "events", &history.events)?;
    put_with_run(page, line, "history", history.run)
}

fn put_description(page: &mut Page, line: u64, description: &Description) -> Result<(), AllocError>
    ensures { OnOk result (sheet_of page.new
        ≡ add_members
        (description_members description.now (line_member line)) (sheet_of page.old)) }
{
    page.number("activities", description.activities)?;
    page.number("cancels", description.cancels)?;
    page.number("children", description.children)?;
    page.number("held", description.held)?;
    page.number("length", description.length)?;
    put_with_run(page, line, "described", description.run)?;
    page.number("signals", description.signals)?;
    page.text("status", description.status.name())?;
    page.number("timers", description.timers)
}

fn put_fired(page: &mut Page, line: u64, fired: Fired) -> Result<(), AllocError>
    ensures { OnOk result (sheet_of page.new
        ≡ add_members (fired_members fired (line_member line)) (sheet_of page.old)) }
{
    page.text("class", fired.class.name())?;
    page.number("due", fired.due)?;
    page.number("event", fired.event)?;
    put_with_run(page, line, "fired", fired.run)
}

fn acknowledged_name(acknowledged: Acknowledged) -> &'static str
    ensures { result.now ≡ acknowledged_name acknowledged }
{
    match acknowledged {
        Acknowledged::Acknowledged => "acknowledged",
        Acknowledged::Already => "already",
        Acknowledged::OutOfOrder => "out_of_order",
    }
}

/// The line's number, the answer's name under `ok`, and what it says.
pub(crate) fn put_answer(page: &mut Page, line: u64, answer: &Answer) -> Result<(), AllocError>
    ensures { OnOk result (sheet_of page.new
        ≡ add_members (answer_members answer.now (line_member line)) (sheet_of page.old)) }
{
    match answer {
        Answer::Started(run) => put_with_run(page, line, "started", *run),
        Answer::Existing(run) => put_with_run(page, line, "existing", *run),
        Answer::Signaled => put_ok(page, line, "signaled"),
        Answer::Repeated => put_ok(page, line, "repeated"),
        Answer::SignaledRun(run) => put_with_run(page, line, "signaled", *run),
        Answer::RepeatedRun(run) => put_with_run(page, line, "repeated", *run),
        Answer::CancelRequested => put_ok(page, line, "cancel_requested"),
        Answer::Terminated => put_ok(page, line, "terminated"),
        Answer::WorkflowTask(task) => put_workflow_task(page, line, task),
        Answer::ActivityTask(task) => put_activity_task(page, line, task.get()),
        Answer::Stale => put_ok(page, line, "stale"),
        Answer::Completed => put_ok(page, line, "completed"),
        Answer::TaskFailed(cause) => put_task_failed(page, line, *cause),
        Answer::Failed => put_ok(page, line, "failed"),
        Answer::ActivityCompleted => put_ok(page, line, "completed"),
        Answer::Retrying(retrying) => put_retrying(page, line, *retrying),
        Answer::ActivityFailed(state) => put_activity_failed(page, line, *state),
        Answer::ActivityCanceled => put_ok(page, line, "canceled"),
        Answer::Heartbeat(cancel_requested) => put_heartbeat(page, line, *cancel_requested),
        Answer::History(history) => put_history(page, line, history),
        Answer::Described(description) => put_description(page, line, description),
        Answer::Fired(fired) => put_fired(page, line, *fired),
        Answer::NothingDue => put_ok(page, line, "none"),
        Answer::Transfer(transfer) => put_with_number(page, line, "taken", transfer.get().number),
        Answer::NoTransfer => put_ok(page, line, "none"),
        Answer::Accepted(number) => put_with_number(page, line, "accepted", *number),
        Answer::AlreadyDelivered(number) => put_with_number(page, line, "already", *number),
        Answer::OutOfOrder(number) => put_with_number(page, line, "out_of_order", *number),
        Answer::Counted(acknowledged) => put_ok(page, line, acknowledged_name(*acknowledged)),
        Answer::Dispatch(dispatch) => put_with_number(page, line, "taken", dispatch.number),
        Answer::NoDispatch => put_ok(page, line, "none"),
        Answer::Empty => put_ok(page, line, "empty"),
        Answer::Taken(number) => put_with_number(page, line, "taken", *number),
        Answer::Pushed(number) => put_with_number(page, line, "pushed", *number),
        Answer::Dispatched(number) => put_with_number(page, line, "dispatched", *number),
    }
}
