//! Tasks that were taken, with the tokens that their outcomes are handed back under.
//!
//! Rules: L10.
#![tactic(auto, unfolding(wire_pages::specs::Pages::add_members, crate::specs::Tasks::workflow_task_members, crate::specs::Tasks::activity_members, crate::specs::Tasks::activity_task_members))]

ghost use Rattle.std.specs.Prelude.{◌≡◌, OnOk, codes};
ghost use Rattle.serde_json.specs.Data.{string};
ghost use Rattle.task_token.specs.TokenTexts.{token_text};
ghost use Rattle.wire_pages.specs.Pages.{sheet_of, add_member, add_members};
ghost use Rattle.wire_replies.specs.Answers.{line_member};
ghost use Rattle.wire_replies.specs.Tasks.{token_of, workflow_task_members, activity_task_members};

use service_model_types::answer::{ActivityTask, WorkflowTask};
use std::alloc::AllocError;
use task_token::{TOKEN_TEXT_LENGTH, TaskToken};
use wf_event_values::{RunId, TaskKind};
use wire_pages::Page;

/// The task's token.
fn put_token(
    page: &mut Page,
    kind: TaskKind,
    run: RunId,
    scheduled: u64,
    attempt: u32,
) -> Result<(), AllocError>
    ensures { OnOk result (sheet_of page.new
        ≡ add_member (codes "token") (string (token_text (token_of kind run scheduled attempt)))
        (sheet_of page.old)) }
{
    let token = TaskToken {
        kind,
        shard: run.shard(),
        run: run.ordinal(),
        event: scheduled,
        attempt,
    };
    let mut buffer = [0; TOKEN_TEXT_LENGTH];
    page.text("token", token.write_in(&mut buffer))
}

pub(crate) fn put_workflow_task(
    page: &mut Page,
    line: u64,
    task: &WorkflowTask,
) -> Result<(), AllocError>
    ensures { OnOk result (sheet_of page.new
        ≡ add_members (workflow_task_members task.now (line_member line)) (sheet_of page.old)) }
{
    page.number("attempt", u64::from(task.attempt))?;
    page.number("line", line)?;
    page.text("ok", "task")?;
    page.run("run", task.run)?;
    page.number("started", task.started)?;
    put_token(
        page,
        TaskKind::Workflow,
        task.run,
        task.scheduled,
        task.attempt,
    )?;
    page.text("workflow_id", task.workflow_id.as_str())
}

pub(crate) fn put_activity_task(
    page: &mut Page,
    line: u64,
    task: &ActivityTask,
) -> Result<(), AllocError>
    ensures { OnOk result (sheet_of page.new
        ≡ add_members (activity_task_members task.now (line_member line)) (sheet_of page.old)) }
{
    page.text("activity_id", task.activity_id.as_str())?;
    page.text("activity_type", task.activity_type.as_str())?;
    page.number("attempt", u64::from(task.attempt))?;
    page.optional_text("details", &task.details)?;
    page.text("input", task.input.as_str())?;
    page.number("line", line)?;
    page.text("ok", "task")?;
    page.run("run", task.run)?;
    put_token(
        page,
        TaskKind::Activity,
        task.run,
        task.scheduled,
        task.attempt,
    )?;
    page.text("workflow_id", task.workflow_id.as_str())
}
