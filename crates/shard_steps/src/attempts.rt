//! The attempt of an activity that a worker has, and what its end adds to the run.
//!
//! Rules: A1, A3, A5, A6, D16.

ghost use Rattle.std.specs.Prelude.{◌≡◌, IfOk};
ghost use Rattle.service_model.specs.Activities.{attempt_started, ends_activity};
ghost use Rattle.service_model.specs.Completion.{is_running_phase};
ghost use Rattle.mutable_state.specs.Activities.{row_said};
ghost use Rattle.shard_steps.specs.Attempts.{runs_at};

use crate::outside::from_outside;
use mutable_state::{Activity, plain};
use mutable_state_keeper::{KeepsRun, Run};
use service_model_types::journal::Fact;
use service_model_types::phase::ActivityPhase;
use std::alloc::{AllocError, Global};
use wf_event::Attributes;
use wf_event::payloads::ActivityTaskStarted;
use wf_event_values::{Items, Moment};

/// Whether a worker has the attempt of this number.
pub fn is_running(activity: &Activity, attempt: u32) -> bool
    ensures { result ≡ runs_at attempt (row_said activity.now) }
{
    is_taken(activity) && activity.notes.attempt == attempt
}

/// Whether a worker has an attempt of the activity.
pub(crate) fn is_taken(activity: &Activity) -> bool
    ensures { result ≡ is_running_phase (row_said activity.now).phase }
{
    matches!(activity.notes.phase, ActivityPhase::Running)
}

/// The facts of an attempt that ends its activity: its ActivityTaskStarted right before this event.
pub fn ended_facts<T: KeepsRun>(
    alloc: Global,
    run: &Run<T>,
    activity: &Activity,
    last: Attributes,
) -> Result<Items<Fact>, AllocError>
    ensures { IfOk result (λ facts.
        facts ≡ ends_activity run.now.state (row_said activity.now) last) }
{
    let mut facts = Vec::new(alloc);
    facts.push(attempt_started(activity))?;
    facts.push(plain(last))?;
    let all = from_outside(alloc, run, facts)?;
    Ok(all)
}

/// The start of an attempt, which is written as it ends its activity, with the moment of its
/// taking.
pub(crate) fn attempt_started(activity: &Activity) -> Fact
    ensures { result ≡ attempt_started (row_said activity.now) }
{
    plain(Attributes::ActivityTaskStarted(ActivityTaskStarted {
        scheduled: activity.scheduled.id,
        attempt: activity.notes.attempt,
        taken: activity.notes.taken.unwrap_or(Moment::zero()),
    }))
}
