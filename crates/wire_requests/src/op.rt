//! What a line can ask for.
//!
//! Rules: L7.

ghost use Rattle.std.specs.Prelude.{◌≡◌};
ghost use Rattle.wire_requests.specs.Ops.{op_named, op_of};

use std::alloc::Global;
use wf_event_values::{Field, Refusal};
use wire_fields::FieldValue;
use wire_trees::Tree;

/// What a line can ask for.
#[derive(Clone, Copy)]
pub(crate) enum Op {
    Start,
    Signal,
    SignalWithStart,
    RequestCancel,
    Terminate,
    CompleteWorkflowTask,
    FailWorkflowTask,
    CompleteActivity,
    FailActivity,
    CancelActivity,
    Heartbeat,
    History,
    Describe,
    TimerTurn,
    PollWorkflowTask,
    PollActivityTask,
    DispatchTurn,
    TransferTurn,
}

fn op_named(name: &str) -> Option<Op>
    ensures { result ≡ op_named name.now }
{
    match name {
        "start" => Some(Op::Start),
        "signal" => Some(Op::Signal),
        "signal_with_start" => Some(Op::SignalWithStart),
        "request_cancel" => Some(Op::RequestCancel),
        "terminate" => Some(Op::Terminate),
        "complete_workflow_task" => Some(Op::CompleteWorkflowTask),
        "fail_workflow_task" => Some(Op::FailWorkflowTask),
        "complete_activity" => Some(Op::CompleteActivity),
        "fail_activity" => Some(Op::FailActivity),
        "cancel_activity" => Some(Op::CancelActivity),
        "heartbeat" => Some(Op::Heartbeat),
        "history" => Some(Op::History),
        "describe" => Some(Op::Describe),
        "timer_turn" => Some(Op::TimerTurn),
        "poll_workflow_task" => Some(Op::PollWorkflowTask),
        "poll_activity_task" => Some(Op::PollActivityTask),
        "dispatch_turn" => Some(Op::DispatchTurn),
        "transfer_turn" => Some(Op::TransferTurn),
        _ => None,
    }
}

impl FieldValue for Op {
    ghost value_of = { op_of };

    fn from_value<V: Tree>(_alloc: Global, field: Field, value: &V) -> Result<Op, Refusal> {
        value
            .text()
            .and_then(op_named)
            .ok_or(Refusal::InvalidArgument(field))
    }
}
