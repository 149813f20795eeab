//! What the deadlines of activities do to their runs.
//!
//! Rules: D5, D6, D7, D8, D9, D17.

ghost use Rattle.std.specs.Prelude.{◌≡◌, cond, ◌∷◌, [], IfOk};
ghost use Rattle.service_model.specs.Activities.{attempt_started};
ghost use Rattle.service_model.specs.Completion.{is_running_phase};
ghost use Rattle.service_model.specs.Tasks.{pending_row};
ghost use Rattle.service_model.specs.TimerTurns.{activity_over, attempt_over, attempt_verdict, timed_out};
ghost use Rattle.mutable_state.specs.Activities.{row_said};

use crate::attempts::{attempt_started, ended_facts, is_taken};
use crate::notes::note_facts;
use crate::outside::from_outside;
use crate::verdicts::verdict_of;
use mutable_state::{Activity, plain};
use mutable_state_keeper::{KeepsRun, Run};
use retry::Ended;
use service_model_types::decided::Verdict;
use service_model_types::journal::{Fact, Note};
use std::alloc::{AllocError, Global};
use wf_event::Attributes;
use wf_event::payloads::ActivityTaskTimedOut;
use wf_event_values::{Items, Moment, RetryState, TimeoutKind};

/// An activity's time is over, whatever it is doing: it is not tried again.
pub(crate) fn activity_over<T: KeepsRun>(
    alloc: Global,
    run: &Run<T>,
    id: u64,
    kind: TimeoutKind,
) -> Result<Items<Fact>, AllocError>
    ensures { IfOk result (λ facts.
        facts ≡ activity_over run.now.state id kind (pending_row run.now.state id)) }
{
    let Some(activity) = run.pending_activity(alloc, id)? else {
        return Ok(Items::from_vec(Vec::new(alloc)));
    };
    let mut facts = started_first(alloc, &activity)?;
    facts.push(plain(timed_out(id, kind, RetryState::Timeout)))?;
    let all = from_outside(alloc, run, facts)?;
    Ok(all)
}

/// The start of the attempt that a worker has, if one does.
fn started_first(alloc: Global, activity: &Activity) -> Result<Vec<Fact>, AllocError>
    ensures { IfOk result (λ facts. facts.items
        ≡ cond (is_running_phase (row_said activity.now).phase)
        (attempt_started (row_said activity.now) ∷ []) []) }
{
    let mut facts = Vec::new(alloc);
    if is_taken(activity) {
        facts.push(attempt_started(activity))?;
    }
    Ok(facts)
}

/// The end of an activity by a timeout.
fn timed_out(scheduled: u64, timeout: TimeoutKind, retry: RetryState) -> Attributes
    ensures { result ≡ timed_out scheduled timeout retry }
{
    Attributes::ActivityTaskTimedOut(ActivityTaskTimedOut {
        scheduled,
        timeout,
        retry,
    })
}

/// A running attempt's time is over: the activity is tried again, or has timed out.
pub(crate) fn attempt_over<T: KeepsRun>(
    alloc: Global,
    run: &Run<T>,
    moment: Moment,
    id: u64,
    kind: TimeoutKind,
) -> Result<Items<Fact>, AllocError>
    ensures { IfOk result (λ facts.
        facts ≡ attempt_verdict run.now.state moment kind (pending_row run.now.state id)) }
{
    let Some(activity) = run.pending_activity(alloc, id)? else {
        return Ok(Items::from_vec(Vec::new(alloc)));
    };
    let Some(verdict) = verdict_of(&activity, Ended::Timeout, moment) else {
        return Ok(Items::from_vec(Vec::new(alloc)));
    };
    let facts = attempt_over_by(alloc, run, &activity, kind, verdict)?;
    Ok(facts)
}

/// What a verdict makes of an attempt whose time is over.
fn attempt_over_by<T: KeepsRun>(
    alloc: Global,
    run: &Run<T>,
    activity: &Activity,
    kind: TimeoutKind,
    verdict: Verdict,
) -> Result<Items<Fact>, AllocError>
    ensures { IfOk result (λ facts.
        facts ≡ attempt_over run.now.state (row_said activity.now) kind verdict) }
{
    let id = activity.scheduled.id;
    match verdict {
        Verdict::GiveUp(state) => { ended_facts(alloc, run, activity, timed_out(id, kind, state)) }
        Verdict::Retry { ready: _ } => note_facts(alloc, id, Note::Ended),
    }
}
