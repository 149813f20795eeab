//! The tasks that tokens name.
//!
//! Rules: F5.

ghost use Rattle.std.specs.Prelude.{◌≡◌};
ghost use Rattle.wire_requests.specs.Tasks.{is_workflow, shard_is_there, task_in, task_of_kind, workflow_task_in, activity_task_in};

use service_model_types::request::TakenTask;
use service_model_types::settings::Settings;
use task_token::TaskToken;
use wf_event_values::{Refusal, TaskKind};

/// Whether a task is a workflow's.
pub fn is_workflow(kind: TaskKind) -> bool
    ensures { result ≡ is_workflow kind }
{
    match kind {
        TaskKind::Workflow => true,
        TaskKind::Activity => false,
    }
}

/// The task that a token names, where it is of the right kind.
pub fn task_of_kind(is_right: bool, token: TaskToken) -> Result<TakenTask, Refusal>
    ensures { result ≡ task_of_kind is_right token }
{
    if !is_right {
        return Err(Refusal::InvalidToken);
    }
    Ok(TakenTask {
        shard: token.shard,
        run: token.run,
        event: token.event,
        attempt: token.attempt,
    })
}

/// A task whose shard is there.
fn shard_is_there(settings: &Settings, task: TakenTask) -> Result<TakenTask, Refusal>
    ensures { result ≡ shard_is_there settings.now task }
{
    if u64::from(task.shard) < settings.shards {
        Ok(task)
    } else {
        Err(Refusal::InvalidToken)
    }
}

/// The task that a token names, where it is of the right kind and its shard is there.
fn task_in(settings: &Settings, is_right: bool, token: TaskToken) -> Result<TakenTask, Refusal>
    ensures { result ≡ task_in settings.now is_right token }
{
    let task = task_of_kind(is_right, token)?;
    shard_is_there(settings, task)
}

/// The workflow task that a token names. A token of the other kind, or of a shard that is not
/// there, is `InvalidToken`.
pub(crate) fn workflow_task_in(settings: &Settings, token: TaskToken) -> Result<TakenTask, Refusal>
    ensures { result ≡ workflow_task_in settings.now token }
{
    task_in(settings, is_workflow(token.kind), token)
}

/// The activity's task that a token names, in the same way.
pub(crate) fn activity_task_in(settings: &Settings, token: TaskToken) -> Result<TakenTask, Refusal>
    ensures { result ≡ activity_task_in settings.now token }
{
    task_in(settings, !is_workflow(token.kind), token)
}
