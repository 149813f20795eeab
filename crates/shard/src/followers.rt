//! The run that follows one which continues as new.
//!
//! Rules: W12, D2.

ghost use Rattle.std.specs.Prelude.{◌≡◌, ◌<◌, length, IfOk, OnOk, option_copied, true};
ghost use Rattle.service_model.specs.RunState.{is_there};
ghost use Rattle.service_model.specs.Journal.{latest};
ghost use Rattle.service_model.specs.Tasks.{continue_part, continued};
ghost use Rattle.shard_issued.specs.Outstanding.{IsCaughtUp};
ghost use Rattle.shard_store.specs.Fitting.{FitsCreated};
ghost use Rattle.shard.specs.Following.{continuing, following};
ghost use Rattle.shard_store.specs.ShardView.{ordinal_of, run_in, runs_at, state};

use mutable_state_keeper::KeepsRun;
use service_model_types::limits::used_task_timeout;
use shard_steps::{Beginning, first_task};
use shard_store::{NewRun, Store};
use std::alloc::{AllocError, Global};
use task_completion::{queue_after, type_after};
use wf_command::Command;
use wf_command::command::ContinueAsNew;
use wf_event::payloads::WorkflowExecutionStarted;
use wf_event_values::{Cause, Id, Items, Moment, RunId};

/// The run that follows the one at a place, where its completion has no fault and continues
/// as new.
pub(crate) fn make_follower<T: KeepsRun>(
    store: &mut Store<T>,
    moment: Moment,
    index: usize,
    fault: Option<Cause>,
    commands: &[Command],
) -> Result<Option<NewRun<T>>, AllocError>
    requires there { index < length store.old.runs }
    requires begun { is_there (run_in store.old index) ≡ true }
    requires caught_up { IsCaughtUp store.old.changed }
    ensures same { state store.new ≡ state store.old }
    ensures runs { store.new.runs ≡ store.old.runs }
    ensures caught_up { OnOk result (IsCaughtUp store.new.changed) }
    ensures made { IfOk result (λ created. FitsCreated store.new moment created
        (continued (runs_at store.old moment) (ordinal_of index) (continuing fault commands.now)
        (run_in store.old index).beginning)) }
{
    let Some(command) = continuing(fault, commands) else {
        return Ok(None);
    };
    let made = make_follower_by(store, moment, index, command)?;
    Ok(Some(made))
}

/// The run that follows the one at a place by this command.
fn make_follower_by<T: KeepsRun>(
    store: &mut Store<T>,
    moment: Moment,
    index: usize,
    command: &ContinueAsNew,
) -> Result<NewRun<T>, AllocError>
    requires there { index < length store.old.runs }
    requires begun { is_there (run_in store.old index) ≡ true }
    ensures same { state store.new ≡ state store.old }
    ensures runs { store.new.runs ≡ store.old.runs }
    ensures caught_up { OnOk result (IsCaughtUp store.new.changed) }
    ensures made { IfOk result (λ made. FitsCreated store.new moment (Some made)
        (continued (runs_at store.old moment) (ordinal_of index) (Some command.now)
        (run_in store.old index).beginning)) }
{
    let from = store.run_id(index);
    let run = store.run(index);
    let beginning = following(
        store.alloc(),
        from,
        command,
        run.started(),
        run.start_request(),
    )?;
    let made = store.prepare_made(moment, beginning)?;
    Ok(made)
}

/// How the run begins that follows one that began like this.
fn following(
    alloc: Global,
    from: RunId,
    command: &ContinueAsNew,
    started: &WorkflowExecutionStarted,
    request_id: Option<&Id>,
) -> Result<Beginning, AllocError>
    ensures { IfOk result (λ b.
        b ≡ following from command.now started.now (option_copied request_id.entry)) }
{
    let task_timeout = command.task_timeout.unwrap_or(started.task_timeout);
    let queue = queue_after(command, started);
    let mut facts = Vec::new(alloc);
    facts.push(first_task(queue)?)?;
    Ok(Beginning {
        started: WorkflowExecutionStarted {
            workflow_id: started.workflow_id.clone()?,
            workflow_type: type_after(command, started).clone()?,
            task_queue: queue.clone()?,
            input: command.input.clone()?,
            run_timeout: command.run_timeout.unwrap_or(started.run_timeout),
            task_timeout: used_task_timeout(task_timeout),
            continued_from: Some(from),
            parent: started.parent,
            execution_deadline: started.execution_deadline,
        },
        request_id: copy_of(request_id)?,
        facts: Items::from_vec(facts),
    })
}

/// A copy of an id that is lent.
fn copy_of(id: Option<&Id>) -> Result<Option<Id>, AllocError>
    ensures { IfOk result (λ copy. copy ≡ option_copied id.entry) }
{
    let Some(id) = id else {
        return Ok(None);
    };
    let copy = id.clone()?;
    Ok(Some(copy))
}

/// The command of a completion without a fault that continues as new, if one does.
fn continuing(fault: Option<Cause>, commands: &[Command]) -> Option<&ContinueAsNew>
    ensures { option_copied result ≡ continuing fault commands.now }
{
    if fault.is_some() {
        return None;
    }
    last_continuing(commands)
}

/// The last command that continues as new, if one does.
fn last_continuing(commands: &[Command]) -> Option<&ContinueAsNew>
    ensures { option_copied result ≡ latest continue_part commands.now }
{
    let mut found = None;
    for command in commands {
        let here = continue_part(command);
        if here.is_some() {
            found = here;
        }
    }
    found
}

/// What a command says about the run that follows, if it continues as new.
fn continue_part(command: &Command) -> Option<&ContinueAsNew>
    ensures { option_copied result ≡ continue_part command.now }
{
    match command {
        Command::ContinueAsNewWorkflowExecution(next) => Some(next),
        _ => None,
    }
}
