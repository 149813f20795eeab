//! Lines that start a run.
//!
//! Rules: L7.

ghost use Rattle.std.specs.Prelude.{◌≡◌};
ghost use Rattle.wf_event_values.specs.Gives.{Gives};
ghost use Rattle.wire_requests.specs.Starts.{start_of, signal_with_start_of};

use service_model_types::request::{SignalWithStart, Start};
use std::alloc::Global;
use wf_event_values::{ConflictPolicy, Field, Refusal, ReusePolicy, Span, Text};
use wire_fields::{optional, or_default, required};
use wire_trees::Tree;

/// The fields of a start.
#[tactic(auto, unfolding(crate::specs::Starts::start_of))]
pub fn start<V: Tree>(alloc: Global, line: &V) -> Result<Start, Refusal>
    ensures { Gives result (start_of (V.stands_for line.now)) }
{
    let workflow_id = required(alloc, line, Field::WorkflowId)?;
    let workflow_type = required(alloc, line, Field::WorkflowType)?;
    let task_queue = required(alloc, line, Field::TaskQueue)?;
    let input = or_default(alloc, line, Field::Input, Text::empty(alloc))?;
    let request_id = optional(alloc, line, Field::RequestId)?;
    let reuse = or_default(alloc, line, Field::Reuse, ReusePolicy::AllowDuplicate)?;
    let conflict = or_default(alloc, line, Field::Conflict, ConflictPolicy::Fail)?;
    let run_timeout = or_default(alloc, line, Field::RunTimeout, Span::none())?;
    let task_timeout = or_default(alloc, line, Field::TaskTimeout, Span::none())?;
    let execution_timeout = or_default(alloc, line, Field::ExecutionTimeout, Span::none())?;
    Ok(Start {
        workflow_id,
        workflow_type,
        task_queue,
        input,
        request_id,
        reuse,
        conflict,
        run_timeout,
        task_timeout,
        execution_timeout,
    })
}

/// The fields of a start but for the conflict policy, and those of the signal.
#[tactic(auto, unfolding(crate::specs::Starts::signal_with_start_of))]
pub fn signal_with_start<V: Tree>(alloc: Global, line: &V) -> Result<SignalWithStart, Refusal>
    ensures { Gives result (signal_with_start_of (V.stands_for line.now)) }
{
    let workflow_id = required(alloc, line, Field::WorkflowId)?;
    let workflow_type = required(alloc, line, Field::WorkflowType)?;
    let task_queue = required(alloc, line, Field::TaskQueue)?;
    let input = or_default(alloc, line, Field::Input, Text::empty(alloc))?;
    let request_id = optional(alloc, line, Field::RequestId)?;
    let reuse = or_default(alloc, line, Field::Reuse, ReusePolicy::AllowDuplicate)?;
    let run_timeout = or_default(alloc, line, Field::RunTimeout, Span::none())?;
    let task_timeout = or_default(alloc, line, Field::TaskTimeout, Span::none())?;
    let execution_timeout = or_default(alloc, line, Field::ExecutionTimeout, Span::none())?;
    let name = required(alloc, line, Field::Name)?;
    let signal_input = or_default(alloc, line, Field::SignalInput, Text::empty(alloc))?;
    Ok(SignalWithStart {
        workflow_id,
        workflow_type,
        task_queue,
        input,
        request_id,
        reuse,
        run_timeout,
        task_timeout,
        execution_timeout,
        name,
        signal_input,
    })
}
