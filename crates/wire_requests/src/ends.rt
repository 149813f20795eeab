//! Lines that ask a run to cancel, and that terminate it.
//!
//! Rules: L7.

ghost use Rattle.wf_event_values.specs.Gives.{Gives};
ghost use Rattle.wire_requests.specs.CancelFields.{request_cancel_of, terminate_of};

use service_model_types::request::{RequestCancel, Terminate};
use std::alloc::Global;
use wf_event_values::{Field, Refusal, Text};
use wire_fields::{optional, or_default, required};
use wire_trees::Tree;

/// The fields of what asks a run to cancel.
#[tactic(auto, unfolding(crate::specs::CancelFields::request_cancel_of))]
pub fn request_cancel<V: Tree>(alloc: Global, line: &V) -> Result<RequestCancel, Refusal>
    ensures { Gives result (request_cancel_of (V.stands_for line.now)) }
{
    let workflow_id = required(alloc, line, Field::WorkflowId)?;
    let run = optional(alloc, line, Field::Run)?;
    let request_id = optional(alloc, line, Field::RequestId)?;
    Ok(RequestCancel {
        workflow_id,
        run,
        request_id,
    })
}

/// The fields of what terminates a run.
#[tactic(auto, unfolding(crate::specs::CancelFields::terminate_of))]
pub fn terminate<V: Tree>(alloc: Global, line: &V) -> Result<Terminate, Refusal>
    ensures { Gives result (terminate_of (V.stands_for line.now)) }
{
    let workflow_id = required(alloc, line, Field::WorkflowId)?;
    let run = optional(alloc, line, Field::Run)?;
    let reason = or_default(alloc, line, Field::Reason, Text::empty(alloc))?;
    Ok(Terminate {
        workflow_id,
        run,
        reason,
    })
}
