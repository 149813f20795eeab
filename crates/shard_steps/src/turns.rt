//! What a deadline that fires writes.
//!
//! Rules: D1, D10, D13, D15.

ghost use Rattle.std.specs.Prelude.{◌≡◌, ℕ, ◌∷◌, [], IfOk};
ghost use Rattle.wf_event.specs.declared.attributes.Attributes.TheVariants.{WorkflowExecutionTimedOut};
ghost use Rattle.service_model.specs.Completion.{next_attempt};
ghost use Rattle.service_model.specs.Deadlines.{dues};
ghost use Rattle.service_model.specs.Journal.{plain};
ghost use Rattle.service_model.specs.TimerTurns.{fire};
ghost use Rattle.timeouts.specs.Firsts.{HasTimer, of_run};
ghost use Rattle.timeouts.specs.Slots.{run_due, IsOneOf};

use crate::activity_turns::{activity_over, attempt_over};
use crate::notes::note_facts;
use crate::outside::is_none;
use mutable_state::plain;
use mutable_state_keeper::{KeepsRun, Run};
use service_model_types::journal::{Fact, Note};
use std::alloc::{AllocError, Global};
use timeouts::Due;
use wf_event::Attributes;
use wf_event::payloads::{TaskEnd, TimerEnd};
use wf_event_values::{DeadlineClass, Items, Moment, TimeoutKind};

/// What a deadline of a run writes.
#[tactic(auto, unfolding(service_model::specs::TimerTurns::fire))]
pub fn fired_facts<T: KeepsRun>(
    alloc: Global,
    run: &Run<T>,
    moment: Moment,
    due: Due,
) -> Result<Items<Fact>, AllocError>
    requires { (retention : ℕ) ×
        IsOneOf (run_due due) (of_run due.run (dues retention run.now.state)) }
    ensures { IfOk result (λ facts. facts ≡ fire run.now.state moment due.event due.class) }
{
    match due.class {
        DeadlineClass::ExecutionTimeout | DeadlineClass::RunTimeout => run_timed_out(alloc),
        DeadlineClass::WorkflowTask => task_timed_out(alloc, run),
        DeadlineClass::ScheduleToClose => {
            activity_over(alloc, run, due.event, TimeoutKind::ScheduleToClose)
        }
        DeadlineClass::ScheduleToStart => {
            activity_over(alloc, run, due.event, TimeoutKind::ScheduleToStart)
        }
        DeadlineClass::Heartbeat => {
            attempt_over(alloc, run, moment, due.event, TimeoutKind::Heartbeat)
        }
        DeadlineClass::StartToClose => {
            attempt_over(alloc, run, moment, due.event, TimeoutKind::StartToClose)
        }
        DeadlineClass::RetryReady => note_facts(alloc, due.event, Note::Ready),
        DeadlineClass::UserTimer => timer_fired(alloc, run, due.event),
        DeadlineClass::Retention => Ok(Items::from_vec(Vec::new(alloc))),
    }
}

/// The run's time is over.
#[tactic(auto, unfolding(service_model::specs::TimerTurns::fire))]
fn run_timed_out(alloc: Global) -> Result<Items<Fact>, AllocError>
    ensures { IfOk result (λ facts. facts ≡ plain WorkflowExecutionTimedOut ∷ []) }
{
    let mut facts = Vec::new(alloc);
    facts.push(plain(Attributes::WorkflowExecutionTimedOut))?;
    Ok(Items::from_vec(facts))
}

/// The time of the workflow task is over that a worker has: it is scheduled again at the next
/// attempt.
#[tactic(auto, unfolding(service_model::specs::TimerTurns::fire))]
fn task_timed_out<T: KeepsRun>(alloc: Global, run: &Run<T>) -> Result<Items<Fact>, AllocError>
    ensures { IfOk result (λ facts. facts ≡ fire run.now.state 0 0 DeadlineClass.WorkflowTask) }
{
    let task = run.task(alloc)?;
    let mut facts = Vec::new(alloc);
    facts.push(plain(Attributes::WorkflowTaskTimedOut(TaskEnd {
        scheduled: task.scheduled,
        started: task.started,
    })))?;
    let again = run.schedule_task(next_attempt(task.attempt))?;
    facts.push(plain(again))?;
    Ok(Items::from_vec(facts))
}

/// A timer fires, which schedules a workflow task where none is scheduled or started.
#[tactic(auto, unfolding(service_model::specs::TimerTurns::fire))]
fn timer_fired<T: KeepsRun>(
    alloc: Global,
    run: &Run<T>,
    started: u64,
) -> Result<Items<Fact>, AllocError>
    requires { HasTimer run.now.state started }
    ensures { IfOk result (λ facts.
        facts ≡ fire run.now.state 0 started DeadlineClass.UserTimer) }
{
    let timer_id = run.timer_id(alloc, started)?;
    let mut facts = Vec::new(alloc);
    facts.push(plain(Attributes::TimerFired(TimerEnd { timer_id, started })))?;
    if is_none(run.task(alloc)?.phase) {
        facts.push(plain(run.schedule_task(1)?))?;
    }
    Ok(Items::from_vec(facts))
}

/// The attempt after one that timed out. It stays at the largest.
fn next_attempt(attempt: u32) -> u32
    ensures { result ≡ next_attempt attempt }
{
    attempt.saturating_add(1)
}
