//! The fields of each operation, in the order in which their faults are looked for.
//!
//! Rules: L7.

ghost use Rattle.std.specs.Prelude.{◌≡◌, [], Ok, Err, true};
ghost use Rattle.service_model_types.specs.Clients.{is_clients};
ghost use Rattle.wf_event_values.specs.Gives.{Gives};
ghost use Rattle.wire_requests.specs.Operations.{signal_of, complete_workflow_task_of, fail_workflow_task_of, read_of, asks, call_of};

use crate::activities::{activity_text, fail_activity};
use crate::commands::Commands;
use crate::ends::{request_cancel, terminate};
use crate::op::Op;
use crate::polls::poll;
use crate::starts::{signal_with_start, start};
use crate::tasks::workflow_task_in;
use crate::turns::{dispatch_turn, timer_turn, transfer_turn};
use service_model_types::call::{Call, StepCall};
use service_model_types::client::ClientRequest;
use service_model_types::request::{
    CompleteWorkflowTask, FailWorkflowTask, Operation, Read, Request, Signal,
};
use service_model_types::settings::Settings;
use std::alloc::Global;
use wf_event::Boxed;
use wf_event_values::{Field, Moment, Refusal, TaskKind, Text};
use wire_fields::{optional, or_default, required};
use wire_trees::Tree;

/// The fields of a signal.
#[tactic(auto, unfolding(crate::specs::Operations::signal_of))]
pub fn signal<V: Tree>(alloc: Global, line: &V) -> Result<Signal, Refusal>
    ensures { Gives result (signal_of (V.stands_for line.now)) }
{
    let workflow_id = required(alloc, line, Field::WorkflowId)?;
    let run = optional(alloc, line, Field::Run)?;
    let name = required(alloc, line, Field::Name)?;
    let input = or_default(alloc, line, Field::Input, Text::empty(alloc))?;
    let request_id = optional(alloc, line, Field::RequestId)?;
    Ok(Signal {
        workflow_id,
        run,
        name,
        input,
        request_id,
    })
}

#[tactic(auto, unfolding(crate::specs::Operations::complete_workflow_task_of))]
fn complete_workflow_task<V: Tree>(
    alloc: Global,
    settings: &Settings,
    line: &V,
) -> Result<CompleteWorkflowTask, Refusal>
    ensures { Gives result (complete_workflow_task_of settings.now (V.stands_for line.now)) }
{
    let token = required(alloc, line, Field::Token)?;
    let task = workflow_task_in(settings, token)?;
    let commands: Commands = required(alloc, line, Field::Commands)?;
    Ok(CompleteWorkflowTask {
        task,
        commands: commands.all,
    })
}

#[tactic(auto, unfolding(crate::specs::Operations::fail_workflow_task_of))]
fn fail_workflow_task<V: Tree>(
    alloc: Global,
    settings: &Settings,
    line: &V,
) -> Result<FailWorkflowTask, Refusal>
    ensures { Gives result (fail_workflow_task_of settings.now (V.stands_for line.now)) }
{
    let token = required(alloc, line, Field::Token)?;
    let task = workflow_task_in(settings, token)?;
    let message = or_default(alloc, line, Field::Message, Text::empty(alloc))?;
    Ok(FailWorkflowTask { task, message })
}

/// The run that is to be read.
#[tactic(auto, unfolding(crate::specs::Operations::read_of))]
pub fn read<V: Tree>(alloc: Global, line: &V) -> Result<Read, Refusal>
    ensures { Gives result (read_of (V.stands_for line.now)) }
{
    let workflow_id = required(alloc, line, Field::WorkflowId)?;
    let run = optional(alloc, line, Field::Run)?;
    Ok(Read { workflow_id, run })
}

/// The request of an operation at a moment.
fn asks(at: Moment, operation: Operation) -> Call
    requires { is_clients operation ≡ true }
    ensures { Ok result ≡ asks at operation }
{
    let request = ClientRequest::new(Request { at, operation });
    Call::Step(StepCall::Request(request))
}

/// What an operation's line asks for, at the line's moment.
pub(crate) fn call_of<V: Tree>(
    alloc: Global,
    settings: &Settings,
    op: Op,
    at: Moment,
    line: &V,
) -> Result<Call, Refusal>
    ensures { Gives result (call_of settings.now op at (V.stands_for line.now)) }
{
    match op {
        Op::Start => {
            let start = Boxed::new(alloc, start(alloc, line)?)?;
            Ok(asks(at, Operation::Start(start)))
        }
        Op::Signal => Ok(asks(at, Operation::Signal(signal(alloc, line)?))),
        Op::SignalWithStart => {
            let both = Boxed::new(alloc, signal_with_start(alloc, line)?)?;
            Ok(asks(at, Operation::SignalWithStart(both)))
        }
        Op::RequestCancel => {
            let cancel = request_cancel(alloc, line)?;
            Ok(asks(at, Operation::RequestCancel(cancel)))
        }
        Op::Terminate => Ok(asks(at, Operation::Terminate(terminate(alloc, line)?))),
        Op::CompleteWorkflowTask => {
            let completion = complete_workflow_task(alloc, settings, line)?;
            Ok(asks(at, Operation::CompleteWorkflowTask(completion)))
        }
        Op::FailWorkflowTask => {
            let failure = fail_workflow_task(alloc, settings, line)?;
            Ok(asks(at, Operation::FailWorkflowTask(failure)))
        }
        Op::CompleteActivity => {
            let completion = activity_text(alloc, settings, Field::Result, line)?;
            Ok(asks(at, Operation::CompleteActivity(completion)))
        }
        Op::FailActivity => {
            let failure = fail_activity(alloc, settings, line)?;
            Ok(asks(at, Operation::FailActivity(failure)))
        }
        Op::CancelActivity => {
            let cancel = activity_text(alloc, settings, Field::Details, line)?;
            Ok(asks(at, Operation::CancelActivity(cancel)))
        }
        Op::Heartbeat => {
            let beat = activity_text(alloc, settings, Field::Details, line)?;
            Ok(asks(at, Operation::Heartbeat(beat)))
        }
        Op::History => Ok(asks(at, Operation::History(read(alloc, line)?))),
        Op::Describe => Ok(asks(at, Operation::Describe(read(alloc, line)?))),
        Op::TimerTurn => {
            let turn = timer_turn(alloc, settings, at, line)?;
            Ok(Call::Step(StepCall::TimerTurn(turn)))
        }
        Op::PollWorkflowTask => Ok(Call::Poll(poll(alloc, TaskKind::Workflow, at, line)?)),
        Op::PollActivityTask => Ok(Call::Poll(poll(alloc, TaskKind::Activity, at, line)?)),
        Op::DispatchTurn => {
            let turn = dispatch_turn(alloc, settings, at, line)?;
            Ok(Call::DispatchTurn(turn))
        }
        Op::TransferTurn => {
            let turn = transfer_turn(alloc, settings, at, line)?;
            Ok(Call::TransferTurn(turn))
        }
    }
}
