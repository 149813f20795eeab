//! When a run's time is over.
//!
//! Rules: D2, D3, D4, D5, D6, D7, D8, D9, D10, D11, D12, D14, R1, R2.

ghost use Rattle.std.specs.Prelude.{◌≡◌, find, option_and_then, option_copied, option_map};
ghost use Rattle.timeouts.specs.Firsts.{first_of, first_due};
ghost use Rattle.timeouts.specs.Slots.{run_due};
ghost use Rattle.service_model.specs.Deadlines.{timer_dues, activity_dues, by_phase, deadline_dues, is_closing_event, retention_dues};
ghost use Rattle.service_model.specs.Pending.{IsQueued, IsRunning, IsWaiting};
ghost use Rattle.mutable_state.specs.Noted.{kept_row};
ghost use Rattle.mutable_state.specs.Readers.{started_timer};
ghost use Rattle.mutable_state.specs.Rows.{NamedBy};
ghost use Rattle.mutable_state.specs.Filed.{IsOfEvent, with_run};
ghost use Rattle.mutable_state.specs.Dues.{own_dues, task_dues, kept_dues, kept_activity_dues, first_in};

use crate::notes::Notes;
use crate::open::Open;
use crate::rows::Row;
use crate::run::Run;
use crate::task::{WorkflowTask, is_started};
use buffered::History;
use event_pieces::Events;
use retry::wait_after;
use service_model_types::phase::ActivityPhase;
use timeouts::{Due, due_after, first_of_two};
use wf_event::payloads::{ActivityTaskScheduled, WorkflowExecutionStarted};
use wf_event::{Attributes, Class, Event};
use wf_event_values::{DeadlineClass, Id, Moment, Span};

impl Run {
    /// The first of its deadlines, where this is its ordinal, and runs that have closed are kept for
    /// so long.
    pub fn first_due(&self, retention: Span, ordinal: u64) -> Option<Due>
        ensures { option_map run_due result ≡ first_due retention ordinal self.now.state }
    {
        let begun = self.history.first().unwrap().at;
        if !self.is_open() {
            return retention_due(retention, &self.history.events(), ordinal);
        }
        let own = first_own_due(begun, self.started(), self.task, ordinal);
        first_of_two(own, of_run(self.in_use.first_due(), ordinal))
    }
}

/// When a run that has closed is kept no longer, where these are its events. Only a service with a
/// retention looks at them, and once for each run.
pub fn retention_due(retention: Span, events: &Events<'_>, ordinal: u64) -> Option<Due>
    ensures { option_map run_due result ≡ first_of ordinal
        (retention_dues retention (find is_closing_event events.now)) }
{
    if retention.millis() == 0 {
        return None;
    }
    let Some(closing) = closing_event(events) else {
        return None;
    };
    due_after(
        closing.at,
        retention,
        ordinal,
        DeadlineClass::Retention,
        closing.id,
    )
}

/// The event among these that closes its run.
fn closing_event<'a>(events: &Events<'a>) -> Option<&'a Event>
    ensures { option_copied result ≡ find is_closing_event events.now }
{
    for event in events.again() {
        if event.attributes.is_closing() {
            return Some(event);
        }
    }
    None
}

/// The same deadline of the run with this ordinal.
fn of_run(due: Option<Due>, ordinal: u64) -> Option<Due>
    ensures { option_map run_due result ≡ option_map (with_run ordinal) (option_map run_due due) }
{
    match due {
        Some(due) => Some(Due {
            due: due.due,
            run: ordinal,
            class: due.class,
            event: due.event,
        }),
        None => None,
    }
}

/// The first deadline of what is kept, as that of the run 0.
pub(crate) fn first_row_due(row: &Open, history: &History) -> Option<Due>
    ensures value { option_map run_due result ≡ first_in history.now.lists.events row.now }
    ensures named { IsOfEvent row.now.opener.event result }
{
    first_of_two(
        kept_activity_due(row, history, 0),
        kept_due(row, history, 0),
    )
}

/// The first deadline of what is in a row, where something is there.
pub(crate) fn first_due_at(row: &Row, history: &History) -> Option<Due>
    ensures value { option_map run_due result
        ≡ option_and_then (first_in history.now.lists.events) row.now.kept }
    ensures named { NamedBy row.now.event row.now.kept → IsOfEvent row.now.event result }
{
    match &row.kept {
        Some(open) => first_row_due(open, history),
        None => None,
    }
}

/// The first deadline of what is kept, where it is a pending activity.
#[tactic(auto, unfolding(service_model::specs::TimerTurns::least))]
fn kept_activity_due(row: &Open, history: &History, ordinal: u64) -> Option<Due>
    ensures { option_map run_due result ≡ first_of ordinal
        (kept_activity_dues history.now.lists.events row.now) }
{
    if !row.is_pending_of(Class::Activity) {
        return None;
    }
    match history.event(row.opener.event) {
        Some(event) => activity_due(event, &row.notes, ordinal),
        None => None,
    }
}

/// The first deadline of the activity that an event scheduled, on which there are these notes.
#[tactic(auto, unfolding(service_model::specs::TimerTurns::least))]
pub fn activity_due(event: &Event, notes: &Notes, ordinal: u64) -> Option<Due>
    ensures { option_map run_due result ≡ first_of ordinal
        (activity_dues (kept_row notes.now event.now)) }
{
    let Attributes::ActivityTaskScheduled(activity) = &event.attributes else {
        return None;
    };
    let activity = activity.get();
    let close = due_after(
        event.at,
        activity.schedule_to_close,
        ordinal,
        DeadlineClass::ScheduleToClose,
        event.id,
    );
    first_of_two(close, phase_due(event, activity, notes, ordinal))
}

/// The first deadline of an activity in its phase.
#[tactic(auto, unfolding(service_model::specs::TimerTurns::least))]
fn phase_due(
    event: &Event,
    activity: &ActivityTaskScheduled,
    notes: &Notes,
    ordinal: u64,
) -> Option<Due>
    ensures { option_map run_due result ≡ first_of ordinal
        (by_phase (kept_row notes.now event.now) activity.now notes.now.phase) }
{
    match notes.phase {
        ActivityPhase::Queued => queued_due(event, activity, notes, ordinal),
        ActivityPhase::Running => running_due(event, activity, notes, ordinal),
        ActivityPhase::Waiting => waiting_due(event, activity, notes, ordinal),
    }
}

/// When an attempt has waited too long to be taken.
fn queued_due(
    event: &Event,
    activity: &ActivityTaskScheduled,
    notes: &Notes,
    ordinal: u64,
) -> Option<Due>
    ensures { option_map run_due result ≡ first_of ordinal
        (by_phase (kept_row notes.now event.now) activity.now IsQueued) }
{
    let since = notes.ready.unwrap_or(event.at);
    due_after(
        since,
        activity.schedule_to_start,
        ordinal,
        DeadlineClass::ScheduleToStart,
        event.id,
    )
}

/// When a running attempt has sent no heartbeat for too long, or has run too long.
fn running_due(
    event: &Event,
    activity: &ActivityTaskScheduled,
    notes: &Notes,
    ordinal: u64,
) -> Option<Due>
    ensures { option_map run_due result ≡ first_of ordinal
        (by_phase (kept_row notes.now event.now) activity.now IsRunning) }
{
    let beat = due_after(
        notes.sign_of_life.unwrap_or(event.at),
        activity.heartbeat,
        ordinal,
        DeadlineClass::Heartbeat,
        event.id,
    );
    let end = due_after(
        notes.taken.unwrap_or(event.at),
        activity.start_to_close,
        ordinal,
        DeadlineClass::StartToClose,
        event.id,
    );
    first_of_two(beat, end)
}

/// When the next attempt is queued.
#[tactic(auto, unfolding(service_model::specs::TimerTurns::least, service_model::specs::Retry::wait))]
fn waiting_due(
    event: &Event,
    activity: &ActivityTaskScheduled,
    notes: &Notes,
    ordinal: u64,
) -> Option<Due>
    ensures { option_map run_due result ≡ first_of ordinal
        (by_phase (kept_row notes.now event.now) activity.now IsWaiting) }
{
    let wait = wait_after(&activity.retry, notes.attempt.saturating_sub(1));
    let since = notes.ended.unwrap_or(event.at);
    Some(Due {
        due: since.millis() + wait,
        run: ordinal,
        class: DeadlineClass::RetryReady,
        event: event.id,
    })
}

/// The id that the worker gave to the timer that an event starts, if it starts one.
pub fn started_timer(event: Option<&Event>) -> Option<&Id>
    ensures { option_copied result ≡ started_timer (option_copied event.entry) }
{
    match &event?.attributes {
        Attributes::TimerStarted(timer) => Some(&timer.timer_id),
        _ => None,
    }
}

/// The deadline of what is kept, where it is a pending timer.
#[tactic(auto, unfolding(service_model::specs::TimerTurns::least))]
fn kept_due(row: &Open, history: &History, ordinal: u64) -> Option<Due>
    ensures { option_map run_due result ≡ first_of ordinal
        (kept_dues history.now.lists.events row.now) }
{
    if !row.is_pending_of(Class::Timer) {
        return None;
    }
    match history.event(row.opener.event) {
        Some(event) => timer_due(event, ordinal),
        None => None,
    }
}

/// The deadline of the timer that an event starts.
#[tactic(auto, unfolding(service_model::specs::TimerTurns::least))]
pub fn timer_due(event: &Event, ordinal: u64) -> Option<Due>
    ensures { option_map run_due result ≡ first_of ordinal (timer_dues event.now) }
{
    match &event.attributes {
        Attributes::TimerStarted(timer) => due_after(
            event.at,
            timer.duration,
            ordinal,
            DeadlineClass::UserTimer,
            event.id,
        ),
        _ => None,
    }
}

/// The first of the deadlines that a run has of itself: that of its workflow's execution, its own
/// timeout, where it began at this moment, and that of its workflow task, where a worker has it.
#[tactic(auto, unfolding(service_model::specs::TimerTurns::least))]
pub fn first_own_due(
    begun: Moment,
    started: &WorkflowExecutionStarted,
    task: WorkflowTask,
    ordinal: u64,
) -> Option<Due>
    ensures { option_map run_due result ≡ first_of ordinal (own_dues begun started.now task) }
{
    let run = due_after(
        begun,
        started.run_timeout,
        ordinal,
        DeadlineClass::RunTimeout,
        1,
    );
    let task = task_due(started, task, ordinal);
    first_of_two(first_of_two(execution_due(started, ordinal), run), task)
}

/// When the time of a workflow's execution is over, where it was given one.
#[tactic(auto, unfolding(service_model::specs::TimerTurns::least))]
fn execution_due(started: &WorkflowExecutionStarted, ordinal: u64) -> Option<Due>
    ensures { option_map run_due result ≡ first_of ordinal
        (deadline_dues started.now.execution_deadline) }
{
    let due = started.execution_deadline?;
    Some(Due {
        due,
        run: ordinal,
        class: DeadlineClass::ExecutionTimeout,
        event: 1,
    })
}

/// When the time of a workflow task is over that a worker has.
#[tactic(auto, unfolding(service_model::specs::TimerTurns::least))]
fn task_due(started: &WorkflowExecutionStarted, task: WorkflowTask, ordinal: u64) -> Option<Due>
    ensures { option_map run_due result ≡ first_of ordinal (task_dues started.now task) }
{
    if !is_started(task.phase) {
        return None;
    }
    due_after(
        task.started_at,
        started.task_timeout,
        ordinal,
        DeadlineClass::WorkflowTask,
        task.scheduled,
    )
}
