//! The commands on activities (Temporal, Commands).
//!
//! Rules: L9.

ghost use Rattle.wf_event_values.specs.Gives.{Gives};
ghost use Rattle.wire_requests.specs.ActivityCommands.{activity_of};

use crate::retry_policy::Policy;
use std::alloc::Global;
use wf_command::command::ScheduleActivityTask;
use wf_event_values::{Field, Refusal, Span, Text};
use wire_fields::{or_default, required};
use wire_trees::Tree;

/// An activity to schedule. Texts and durations may be missing, and so may the policy.
#[tactic(auto, unfolding(crate::specs::ActivityCommands::activity_of))]
pub(crate) fn activity<V: Tree>(alloc: Global, object: &V) -> Result<ScheduleActivityTask, Refusal>
    ensures { Gives result (activity_of (V.stands_for object.now)) }
{
    let by_default = Policy::by_default(alloc);
    let activity_id = required(alloc, object, Field::ActivityId)?;
    let activity_type = or_default(alloc, object, Field::ActivityType, Text::empty(alloc))?;
    let task_queue = required(alloc, object, Field::TaskQueue)?;
    let input = or_default(alloc, object, Field::Input, Text::empty(alloc))?;
    let schedule_to_start = or_default(alloc, object, Field::ScheduleToStart, Span::none())?;
    let start_to_close = or_default(alloc, object, Field::StartToClose, Span::none())?;
    let schedule_to_close = or_default(alloc, object, Field::ScheduleToClose, Span::none())?;
    let heartbeat = or_default(alloc, object, Field::Heartbeat, Span::none())?;
    let policy = or_default(alloc, object, Field::Retry, by_default)?;
    Ok(ScheduleActivityTask {
        activity_id,
        activity_type,
        task_queue,
        input,
        schedule_to_start,
        start_to_close,
        schedule_to_close,
        heartbeat,
        retry: policy.fields,
    })
}
