//! The replies that are given most, by pieces of text. Any other is left to the page, and so is one
//! with a text that needs escapes.
//!
//! Rules: L10.

ghost use Rattle.std.specs.Prelude.{◌≡◌, [], ◌++◌, codes, IfOk, OnOk, string_bytes};
ghost use Rattle.std.specs.Bool.{OnTrue};
ghost use Rattle.serde_json.specs.Data.{object};
ghost use Rattle.wire_replies.specs.Answers.{line_member, ok_member, with_run};
ghost use Rattle.wire_replies.specs.Replies.{line_of, reply_line};
ghost use Rattle.wire_replies.specs.Tasks.{token_of, workflow_task_members};
ghost use Rattle.wf_event_values.specs.declared.policies.TaskKind.TheVariants.{Workflow};

use service_model_types::answer::{Answer, Reply, WorkflowTask};
use std::alloc::AllocError;
use task_token::{RUN_TEXT_LENGTH, RunText, TOKEN_TEXT_LENGTH, TaskToken};
use text_pieces::{is_plain, put_both, put_number};
use wf_event_values::{RunId, TaskKind};

/// One more piece of text.
#[inline(always)]
fn put_last(page: &mut String, piece: &str) -> Result<(), AllocError>
    ensures { OnOk result (string_bytes page.new ≡ string_bytes page.old ++ piece.now) }
{
    page.push_str(piece)
}

/// The line of a signal that was taken. It says that it was written.
fn put_signaled(page: &mut String, line: u64) -> Result<bool, AllocError>
    requires { string_bytes page.old ≡ [] }
    ensures { IfOk result (λ done. OnTrue done (string_bytes page.new
        ≡ line_of (object (ok_member (codes "signaled") (line_member line))))) }
{
    put_number(page, "{\"line\":", line)?;
    put_last(page, ",\"ok\":\"signaled\"}\n")?;
    Ok(true)
}

/// The line of a task that was completed. It says that it was written.
fn put_completed(page: &mut String, line: u64) -> Result<bool, AllocError>
    requires { string_bytes page.old ≡ [] }
    ensures { IfOk result (λ done. OnTrue done (string_bytes page.new
        ≡ line_of (object (ok_member (codes "completed") (line_member line))))) }
{
    put_number(page, "{\"line\":", line)?;
    put_last(page, ",\"ok\":\"completed\"}\n")?;
    Ok(true)
}

/// The line of a run that was started. It says whether it was written.
fn put_started(page: &mut String, line: u64, run: RunId) -> Result<bool, AllocError>
    requires { string_bytes page.old ≡ [] }
    ensures { IfOk result (λ done. OnTrue done (string_bytes page.new
        ≡ line_of (object (with_run (codes "started") run (line_member line))))) }
{
    let mut buffer = [0; RUN_TEXT_LENGTH];
    let run = run.write(&mut buffer);
    if !is_plain(run.as_bytes()) {
        return Ok(false);
    }
    put_number(page, "{\"line\":", line)?;
    put_both(page, ",\"ok\":\"started\",\"run\":\"", run)?;
    put_last(page, "\"}\n")?;
    Ok(true)
}

/// The token of a workflow task.
fn workflow_token(task: &WorkflowTask) -> TaskToken
    ensures { result ≡ token_of Workflow task.now.run task.now.scheduled task.now.attempt }
{
    TaskToken {
        kind: TaskKind::Workflow,
        shard: task.run.shard(),
        run: task.run.ordinal(),
        event: task.scheduled,
        attempt: task.attempt,
    }
}

/// The line of a workflow task that was taken. It says whether it was written.
fn put_task(page: &mut String, line: u64, task: &WorkflowTask) -> Result<bool, AllocError>
    requires { string_bytes page.old ≡ [] }
    ensures { IfOk result (λ done. OnTrue done (string_bytes page.new
        ≡ line_of (object (workflow_task_members task.now (line_member line))))) }
{
    let token = workflow_token(task);
    let mut token_buffer = [0; TOKEN_TEXT_LENGTH];
    let token = token.write_in(&mut token_buffer);
    let mut run_buffer = [0; RUN_TEXT_LENGTH];
    let run = task.run.write(&mut run_buffer);
    let workflow_id = task.workflow_id.as_str();
    if !is_plain(token.as_bytes()) {
        return Ok(false);
    }
    if !is_plain(run.as_bytes()) {
        return Ok(false);
    }
    if !is_plain(workflow_id.as_bytes()) {
        return Ok(false);
    }
    put_number(page, "{\"attempt\":", u64::from(task.attempt))?;
    put_number(page, ",\"line\":", line)?;
    put_both(page, ",\"ok\":\"task\",\"run\":\"", run)?;
    put_number(page, "\",\"started\":", task.started)?;
    put_both(page, ",\"token\":\"", token)?;
    put_both(page, "\",\"workflow_id\":\"", workflow_id)?;
    put_last(page, "\"}\n")?;
    Ok(true)
}

/// Writes the line of a reply, where it is one of these. It says whether it was written.
#[tactic(auto, unfolding(crate::specs::Replies::reply_line, crate::specs::Replies::reply_tree))]
pub(crate) fn put_quickly(page: &mut String, line: u64, reply: &Reply) -> Result<bool, AllocError>
    requires { string_bytes page.old ≡ [] }
    ensures { IfOk result (λ done. OnTrue done (string_bytes page.new
        ≡ reply_line line reply.now)) }
{
    let Ok(answer) = reply else {
        return Ok(false);
    };
    match answer {
        Answer::Started(run) => put_started(page, line, *run),
        Answer::Signaled => put_signaled(page, line),
        Answer::WorkflowTask(task) => put_task(page, line, task),
        Answer::Completed => put_completed(page, line),
        Answer::ActivityCompleted => put_completed(page, line),
        _ => Ok(false),
    }
}
