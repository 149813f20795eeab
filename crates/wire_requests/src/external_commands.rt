//! The commands that reach other workflows: children, and runs outside (Temporal, Commands).
//!
//! Rules: L9.

ghost use Rattle.wf_event_values.specs.declared.field.Field.TheVariants as field;
ghost use Rattle.wf_event_values.specs.Gives.{Gives};
ghost use Rattle.wire_fields.specs.Fields.{optional};
ghost use Rattle.wire_requests.specs.ExternalCommands.{child_of, command_run_of, external_cancel_of, external_signal_of};

use std::alloc::Global;
use std::marker::Model;
use task_token::RunText;
use wf_command::command::{RequestCancelExternal, SignalExternal, StartChild};
use wf_event_values::{Field, ParentClosePolicy, Refusal, ReusePolicy, RunId, Span, Text};
use wire_fields::{FieldValue, optional, or_default, required};
use wire_trees::Tree;

/// A run that a command names, as a field's value.
#[derive(Drop)]
struct CommandRun {
    run: RunId,
}

impl Model for CommandRun {
    ghost use Rattle.wf_event_values.specs.Run.{Run};

    ghost Value = { Run };

    ghost view = { λ c. c.run };
}

impl FieldValue for CommandRun {
    ghost value_of = { command_run_of };

    /// A text that is no run id is a fault of the command, so the argument is invalid.
    fn from_value<V: Tree>(_alloc: Global, field: Field, value: &V) -> Result<CommandRun, Refusal> {
        let Some(text) = value.text() else {
            return Err(Refusal::InvalidArgument(field));
        };
        match RunId::read(text) {
            Ok(run) => Ok(CommandRun { run }),
            Err(_) => Err(Refusal::InvalidArgument(field)),
        }
    }
}

/// The run that a command names, where it names one.
fn named_run<V: Tree>(alloc: Global, object: &V) -> Result<Option<RunId>, Refusal>
    ensures { Gives result (optional command_run_of field.Run (V.stands_for object.now)) }
{
    match optional(alloc, object, Field::Run)? {
        Some(CommandRun { run }) => Ok(Some(run)),
        None => Ok(None),
    }
}

/// A child to start. Texts, policies and durations may be missing.
#[tactic(auto, unfolding(crate::specs::ExternalCommands::child_of))]
pub(crate) fn child<V: Tree>(alloc: Global, object: &V) -> Result<StartChild, Refusal>
    ensures { Gives result (child_of (V.stands_for object.now)) }
{
    let workflow_id = required(alloc, object, Field::WorkflowId)?;
    let workflow_type = or_default(alloc, object, Field::WorkflowType, Text::empty(alloc))?;
    let task_queue = required(alloc, object, Field::TaskQueue)?;
    let input = or_default(alloc, object, Field::Input, Text::empty(alloc))?;
    let reuse = or_default(alloc, object, Field::Reuse, ReusePolicy::AllowDuplicate)?;
    let by_default = ParentClosePolicy::Terminate;
    let parent_close = or_default(alloc, object, Field::ParentClose, by_default)?;
    let run_timeout = or_default(alloc, object, Field::RunTimeout, Span::none())?;
    let task_timeout = or_default(alloc, object, Field::TaskTimeout, Span::none())?;
    Ok(StartChild {
        workflow_id,
        workflow_type,
        task_queue,
        input,
        reuse,
        parent_close,
        run_timeout,
        task_timeout,
    })
}

/// A signal to another workflow. Its texts may be missing.
#[tactic(auto, unfolding(crate::specs::ExternalCommands::external_signal_of))]
pub(crate) fn external_signal<V: Tree>(alloc: Global, object: &V) -> Result<SignalExternal, Refusal>
    ensures { Gives result (external_signal_of (V.stands_for object.now)) }
{
    let workflow_id = required(alloc, object, Field::WorkflowId)?;
    let run = named_run(alloc, object)?;
    let name = or_default(alloc, object, Field::Name, Text::empty(alloc))?;
    let input = or_default(alloc, object, Field::Input, Text::empty(alloc))?;
    Ok(SignalExternal {
        workflow_id,
        run,
        name,
        input,
    })
}

#[tactic(auto, unfolding(crate::specs::ExternalCommands::external_cancel_of))]
pub(crate) fn external_cancel<V: Tree>(
    alloc: Global,
    object: &V,
) -> Result<RequestCancelExternal, Refusal>
    ensures { Gives result (external_cancel_of (V.stands_for object.now)) }
{
    let workflow_id = required(alloc, object, Field::WorkflowId)?;
    let run = named_run(alloc, object)?;
    Ok(RequestCancelExternal { workflow_id, run })
}
