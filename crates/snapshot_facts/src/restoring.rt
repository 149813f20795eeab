//! A run that is restored fact by fact.
//!
//! Each fact is a step of its own. It is added where the run's state says that it may come next.

ghost use Rattle.std.specs.Prelude.{◌≡◌, ◌∷◌, ◌++◌, ◌+◌, ℕ, [], false, not, IfOk, IsTrue, OnErr};
ghost use Rattle.std.specs.List.{list_any};
ghost use Rattle.wf_event.specs.Role.{role, settles};
ghost use Rattle.service_model.specs.Journal.{Journal};
ghost use Rattle.service_model.specs.Outcome.{is_no_task};
ghost use Rattle.service_model.specs.RunState.{signal_request_by};
ghost use Rattle.service_model.specs.Service.{entries};
ghost use Rattle.service_model.specs.Signals.{was_signaled};
ghost use Rattle.service_model.specs.Tasks.{pending_row};
ghost use Rattle.mutable_state.specs.Formed.{Stands};
ghost use Rattle.mutable_state.specs.Readers.{used_rows};
ghost use Rattle.mutable_state.specs.Steps.{after_step, is_start, may_ask};
ghost use Rattle.snapshot_facts.specs.Restoring.{event_may_come, is_pending_row, is_timer_cancel, is_used_row, may_come, may_stand, note_may_come, settles_some};

use mutable_state::{StepFacts, is_scheduled, is_started};
use mutable_state_keeper::{KeepsRun, Run};
use service_model_types::journal::{EventFact, Fact, Note, NoteFact};
use service_model_types::phase::TaskPhase;
use std::alloc::{AllocError, Global};
use wf_event::{Attributes, Class, Opener};
use wf_event_values::{Items, Moment};

/// Whether there is no workflow task.
fn is_none(phase: TaskPhase) -> bool
    ensures { result ≡ is_no_task phase }
{
    matches!(phase, TaskPhase::None)
}

/// Whether such an event may come where the workflow task stands so.
#[tactic(auto, unfolding(wf_event::specs::Role::role))]
fn may_stand(attributes: &Attributes, phase: TaskPhase) -> bool
    ensures { result ≡ may_stand (role attributes.now) phase }
{
    match attributes {
        Attributes::WorkflowTaskScheduled(_) => is_none(phase),
        Attributes::WorkflowTaskStarted(_) => is_scheduled(phase),
        Attributes::WorkflowTaskCompleted(_)
        | Attributes::WorkflowTaskTimedOut(_)
        | Attributes::WorkflowTaskFailed(_) => is_started(phase),
        _ => attributes.is_closing() || attributes.is_outside() || !is_started(phase),
    }
}

/// Whether an event cancels a timer.
#[tactic(auto, unfolding(wf_event::specs::Role::role))]
fn is_timer_cancel(attributes: &Attributes) -> bool
    ensures { result ≡ is_timer_cancel (role attributes.now) }
{
    matches!(attributes, Attributes::TimerCanceled(_))
}

/// Whether an event begins a run.
fn is_start(attributes: &Attributes) -> bool
    ensures { result ≡ is_start attributes.now }
{
    matches!(attributes, Attributes::WorkflowExecutionStarted(_))
}

/// Whether what this opened is in use.
fn is_used<T: KeepsRun>(alloc: Global, run: &Run<T>, opener: Opener) -> Result<bool, AllocError>
    ensures { IfOk result (λ found. found
        ≡ list_any (is_used_row opener.event) (used_rows opener.class run.now.state)) }
{
    let rows = run.used(alloc, opener.class)?;
    Ok(rows.iter().any(|row| row.event() == opener.event))
}

/// Whether it is, and no event that settles it is buffered.
fn is_pending<T: KeepsRun>(alloc: Global, run: &Run<T>, opener: Opener) -> Result<bool, AllocError>
    ensures { IfOk result (λ found. found
        ≡ list_any (is_pending_row opener.event) (used_rows opener.class run.now.state)) }
{
    let rows = run.used(alloc, opener.class)?;
    Ok(
        rows.iter()
            .any(|row| row.event() == opener.event && !row.is_settled()),
    )
}

/// Whether what the event settles, if anything, may be settled.
fn may_settle<T: KeepsRun>(
    alloc: Global,
    run: &Run<T>,
    attributes: &Attributes,
) -> Result<bool, AllocError>
    ensures { IfOk result (λ may. may
        ≡ settles_some (role attributes.now) (settles attributes.now) run.now.state) }
{
    let Some(opener) = attributes.settles() else {
        return Ok(true);
    };
    if is_timer_cancel(attributes) {
        return Ok(is_used(alloc, run, opener)?);
    }
    Ok(is_pending(alloc, run, opener)?)
}

/// Whether the activity that the event asks to cancel, if any, is in use.
fn may_ask<T: KeepsRun>(
    alloc: Global,
    run: &Run<T>,
    attributes: &Attributes,
) -> Result<bool, AllocError>
    ensures { IfOk result (λ may. may ≡ may_ask attributes.now run.now.state) }
{
    let Attributes::ActivityTaskCancelRequested(scheduled) = attributes else {
        return Ok(true);
    };
    let opener = Opener {
        class: Class::Activity,
        event: *scheduled,
    };
    Ok(is_used(alloc, run, opener)?)
}

/// Whether no earlier signal bore the request id that made this event, where that is a signal.
fn is_first<T: KeepsRun>(run: &Run<T>, event: &EventFact) -> bool
    ensures { result ≡ not (was_signaled run.now.state.signal_requests
        (signal_request_by event.now.request_id event.now.attributes)) }
{
    match &event.attributes {
        Attributes::WorkflowExecutionSignaled(_) => !run.was_signaled(&event.request_id),
        _ => true,
    }
}

/// Whether an event may come next.
fn event_may_come<T: KeepsRun>(
    alloc: Global,
    run: &Run<T>,
    event: &EventFact,
) -> Result<bool, AllocError>
    ensures { IfOk result (λ may. may
        ≡ event_may_come run.now.state event.now.request_id event.now.attributes) }
{
    let attributes = &event.attributes;
    if !run.is_open() {
        return Ok(false);
    }
    let task = run.task(alloc)?;
    if !may_stand(attributes, task.phase) || is_start(attributes) {
        return Ok(false);
    }
    if !may_settle(alloc, run, attributes)? || !may_ask(alloc, run, attributes)? {
        return Ok(false);
    }
    Ok(is_first(run, event))
}

/// Whether a note may come next.
fn note_may_come<T: KeepsRun>(
    alloc: Global,
    run: &Run<T>,
    note: &NoteFact,
) -> Result<bool, AllocError>
    ensures { IfOk result (λ may. may
        ≡ note_may_come note.now.note (pending_row run.now.state note.now.activity)) }
{
    let Some(activity) = run.pending_activity(alloc, note.activity)? else {
        return Ok(false);
    };
    match &note.note {
        Note::Ended => Ok(activity.notes.attempt != u32::MAX),
        _ => Ok(true),
    }
}

/// Whether a fact may come next, as a step of its own.
///
/// # Errors
/// Where memory was refused.
pub fn may_come<T: KeepsRun>(alloc: Global, run: &Run<T>, fact: &Fact) -> Result<bool, AllocError>
    ensures { IfOk result (λ may. may ≡ may_come run.now.state fact.now) }
{
    match fact {
        Fact::Event(event) => event_may_come(alloc, run, event),
        Fact::Note(note) => Ok(run.is_open() && note_may_come(alloc, run, note)?),
    }
}

/// Adds a fact as a step of its own, at the step's moment, where it may come next. True where it was
/// added; else the run is as it was.
///
/// # Errors
/// Where memory was refused. The run is as it was.
pub fn try_add<T: KeepsRun>(
    alloc: Global,
    run: &mut Run<T>,
    moment: Moment,
    fact: Fact,
) -> Result<bool, AllocError>
    ensures tested { IfOk result (λ added. added ≡ may_come run.old.state fact) }
    ensures added { IfOk result (λ added. IsTrue added
        → run.new.state ≡ after_step moment (fact ∷ []) run.old.state) }

    // Where the run stood for a journal, it stands for the journal with this step.
    ensures stands { IfOk result (λ added. IsTrue added
        → (steps : ℕ) (J : Journal) → Stands steps J run.old.state
        → Stands (steps + 1) (J ++ entries (steps + 1) moment 0 (fact ∷ [])) run.new.state) }

    ensures refused { IfOk result (λ added. added ≡ false
        → run.new.state ≡ run.old.state) }
    ensures err { OnErr result (run.new.state ≡ run.old.state) }
{
    if !may_come(alloc, run, &fact)? {
        return Ok(false);
    }
    let mut facts = Vec::with_capacity(alloc, 1)?;
    facts.push(fact)?;
    let facts = Items::from_vec(facts);
    let plan = run.prepare(StepFacts { moment, facts })?;
    run.commit(plan);
    Ok(true)
}
