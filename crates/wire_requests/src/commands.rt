//! The commands of a completion (Temporal, Commands).
//!
//! Rules: L9.

ghost use Rattle.std.specs.Prelude.{◌≡◌, [], map};
ghost use Rattle.wf_event_values.specs.Gives.{Gives};
ghost use Rattle.wire_fields.specs.Steps.{for_each};
ghost use Rattle.wire_fields.specs.Kinds.{text_of};
ghost use Rattle.wire_fields.specs.Fields.{or_default};
ghost use Rattle.wire_requests.specs.Commands.{type_named, type_of, timer_of, marker_of, continue_of, fields_of, command_of, commands_of};

use crate::activity_commands::activity;
use crate::external_commands::{child, external_cancel, external_signal};
use service_model_types::limits::MOST_COMMANDS;
use std::alloc::Global;
use std::marker::Model;
use wf_command::Command;
use wf_command::command::{ContinueAsNew, RecordMarker, StartTimer};
use wf_event_values::{Field, Items, Refusal, Span, Text};
use wire_fields::{FieldValue, elements, optional, or_default, required};
use wire_trees::Tree;

/// The types of command.
#[derive(Clone, Copy)]
pub enum CommandType {
    ScheduleActivityTask,
    RequestCancelActivityTask,
    StartTimer,
    CancelTimer,
    RecordMarker,
    CompleteWorkflowExecution,
    FailWorkflowExecution,
    CancelWorkflowExecution,
    ContinueAsNewWorkflowExecution,
    StartChildWorkflowExecution,
    SignalExternalWorkflowExecution,
    RequestCancelExternalWorkflowExecution,
}

fn type_named(name: &str) -> Option<CommandType>
    ensures { result ≡ type_named name.now }
{
    match name {
        "ScheduleActivityTask" => Some(CommandType::ScheduleActivityTask),
        "RequestCancelActivityTask" => Some(CommandType::RequestCancelActivityTask),
        "StartTimer" => Some(CommandType::StartTimer),
        "CancelTimer" => Some(CommandType::CancelTimer),
        "RecordMarker" => Some(CommandType::RecordMarker),
        "CompleteWorkflowExecution" => Some(CommandType::CompleteWorkflowExecution),
        "FailWorkflowExecution" => Some(CommandType::FailWorkflowExecution),
        "CancelWorkflowExecution" => Some(CommandType::CancelWorkflowExecution),
        "ContinueAsNewWorkflowExecution" => Some(CommandType::ContinueAsNewWorkflowExecution),
        "StartChildWorkflowExecution" => Some(CommandType::StartChildWorkflowExecution),
        "SignalExternalWorkflowExecution" => Some(CommandType::SignalExternalWorkflowExecution),
        "RequestCancelExternalWorkflowExecution" => Some(
            CommandType::RequestCancelExternalWorkflowExecution,
        ),
        _ => None,
    }
}

impl FieldValue for CommandType {
    ghost value_of = { type_of };

    fn from_value<V: Tree>(
        _alloc: Global,
        field: Field,
        value: &V,
    ) -> Result<CommandType, Refusal> {
        value
            .text()
            .and_then(type_named)
            .ok_or(Refusal::InvalidArgument(field))
    }
}

/// A text of a command, which is empty where it is missing.
fn text<V: Tree>(alloc: Global, object: &V, field: Field) -> Result<Text, Refusal>
    ensures { Gives result (or_default text_of [] field (V.stands_for object.now)) }
{
    or_default(alloc, object, field, Text::empty(alloc))
}

/// A timer to be started. Without a duration it has none, which its command is judged by.
#[tactic(auto, unfolding(crate::specs::Commands::timer_of))]
fn timer<V: Tree>(alloc: Global, object: &V) -> Result<StartTimer, Refusal>
    ensures { Gives result (timer_of (V.stands_for object.now)) }
{
    let timer_id = required(alloc, object, Field::TimerId)?;
    let duration = or_default(alloc, object, Field::Duration, Span::none())?;
    Ok(StartTimer { timer_id, duration })
}

#[tactic(auto, unfolding(crate::specs::Commands::marker_of))]
fn marker<V: Tree>(alloc: Global, object: &V) -> Result<RecordMarker, Refusal>
    ensures { Gives result (marker_of (V.stands_for object.now)) }
{
    let name = text(alloc, object, Field::Name)?;
    let details = text(alloc, object, Field::Details)?;
    Ok(RecordMarker { name, details })
}

/// A run to follow this one. What is absent is as it was, but for the input, which is empty then.
#[tactic(auto, unfolding(crate::specs::Commands::continue_of))]
fn continue_as_new<V: Tree>(alloc: Global, object: &V) -> Result<ContinueAsNew, Refusal>
    ensures { Gives result (continue_of (V.stands_for object.now)) }
{
    let workflow_type = optional(alloc, object, Field::WorkflowType)?;
    let task_queue = optional(alloc, object, Field::TaskQueue)?;
    let input = text(alloc, object, Field::Input)?;
    let run_timeout = optional(alloc, object, Field::RunTimeout)?;
    let task_timeout = optional(alloc, object, Field::TaskTimeout)?;
    Ok(ContinueAsNew {
        workflow_type,
        task_queue,
        input,
        run_timeout,
        task_timeout,
    })
}

/// The command of that type whose fields an object has.
fn fields<V: Tree>(alloc: Global, of: CommandType, object: &V) -> Result<Command, Refusal>
    ensures { Gives result (fields_of of (V.stands_for object.now)) }
{
    match of {
        CommandType::ScheduleActivityTask => {
            Ok(Command::ScheduleActivityTask(activity(alloc, object)?))
        }
        CommandType::RequestCancelActivityTask => {
            let scheduled = required(alloc, object, Field::Scheduled)?;
            Ok(Command::RequestCancelActivityTask(scheduled))
        }
        CommandType::StartTimer => Ok(Command::StartTimer(timer(alloc, object)?)),
        CommandType::CancelTimer => {
            let timer_id = required(alloc, object, Field::TimerId)?;
            Ok(Command::CancelTimer(timer_id))
        }
        CommandType::RecordMarker => Ok(Command::RecordMarker(marker(alloc, object)?)),
        CommandType::CompleteWorkflowExecution => {
            let result = text(alloc, object, Field::Result)?;
            Ok(Command::CompleteWorkflowExecution(result))
        }
        CommandType::FailWorkflowExecution => {
            let message = text(alloc, object, Field::Message)?;
            Ok(Command::FailWorkflowExecution(message))
        }
        CommandType::CancelWorkflowExecution => {
            let details = text(alloc, object, Field::Details)?;
            Ok(Command::CancelWorkflowExecution(details))
        }
        CommandType::ContinueAsNewWorkflowExecution => {
            Ok(Command::ContinueAsNewWorkflowExecution(continue_as_new(alloc, object)?))
        }
        CommandType::StartChildWorkflowExecution => {
            Ok(Command::StartChildWorkflowExecution(child(alloc, object)?))
        }
        CommandType::SignalExternalWorkflowExecution => {
            Ok(Command::SignalExternalWorkflowExecution(external_signal(alloc, object)?))
        }
        CommandType::RequestCancelExternalWorkflowExecution => {
            Ok(Command::RequestCancelExternalWorkflowExecution(external_cancel(alloc, object)?))
        }
    }
}

/// A command. One that is no object has no type.
#[tactic(auto, unfolding(crate::specs::Commands::command_of))]
fn command<V: Tree>(alloc: Global, value: &V) -> Result<Command, Refusal>
    ensures { Gives result (command_of (V.stands_for value.now)) }
{
    let of = required(alloc, value, Field::Type)?;
    fields(alloc, of, value)
}

/// All commands, or the fault of the first faulty one.
pub fn each_command<V: Tree>(alloc: Global, values: &[V]) -> Result<Items<Command>, Refusal>
    ensures { Gives result (for_each command_of (map V.stands_for values.now)) }
{
    let mut commands = Vec::new(alloc);
    for value in values {
        commands.push(command(alloc, value)?)?;
    }
    Ok(Items::from_vec(commands))
}

/// The commands of a completion, as a field's value.
#[derive(Drop)]
pub(crate) struct Commands {
    pub(crate) all: Items<Command>,
}

impl Model for Commands {
    ghost use Rattle.std.specs.Prelude.{List};
    ghost use Rattle.wf_command.specs.declared.command.Command.{Command};

    ghost Value = { List Command };

    ghost view = { λ c. c.all };
}

impl FieldValue for Commands {
    ghost value_of = { commands_of };

    /// Too many commands are found before any of them is looked at; of a faulty command its own
    /// field is named.
    fn from_value<V: Tree>(alloc: Global, field: Field, value: &V) -> Result<Commands, Refusal> {
        let all = each_command(alloc, elements(field, MOST_COMMANDS, value)?)?;
        Ok(Commands { all })
    }
}
