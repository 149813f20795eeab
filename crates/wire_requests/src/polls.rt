//! The lines that ask a task queue for a task.
//!
//! Rules: L7.

ghost use Rattle.wf_event_values.specs.Gives.{Gives};
ghost use Rattle.wire_requests.specs.Polls.{poll_of};

use service_model_types::call::Poll;
use std::alloc::Global;
use wf_event_values::{Field, Moment, Refusal, TaskKind};
use wire_fields::required;
use wire_trees::Tree;

#[tactic(auto, unfolding(crate::specs::Polls::poll_of))]
pub(crate) fn poll<V: Tree>(
    alloc: Global,
    kind: TaskKind,
    at: Moment,
    line: &V,
) -> Result<Poll, Refusal>
    ensures { Gives result (poll_of kind at (V.stands_for line.now)) }
{
    let task_queue = required(alloc, line, Field::TaskQueue)?;
    Ok(Poll {
        kind,
        task_queue,
        at,
    })
}
