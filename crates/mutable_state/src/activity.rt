//! The activities of a run, as they are asked for.

ghost use Rattle.std.specs.Prelude.{◌≡◌, filter_map, IfOk};
ghost use Rattle.mutable_state.specs.Activities.{noted_activity, noted_activities, activity_at};
ghost use Rattle.mutable_state.specs.Noted.{kept_row};
ghost use Rattle.mutable_state.specs.Rows.{activity_in};

use crate::notes::Notes;
use crate::open::Open;
use crate::rows::Row;
use crate::run::Run;
use buffered::History;
use std::alloc::{AllocError, Global};
use wf_event::{Class, Event};

/// An activity: the event that scheduled it, and what the notes on it say.
pub struct Activity {
    pub scheduled: Event,
    pub notes: Notes,
}

impl Drop for Activity {
    fn drop(self) {
        let Activity {
            scheduled: _,
            notes: _,
        } = self;
    }
}

/// An activity in use, by the event that scheduled it, and what matters of it to commands.
#[derive(Clone, Copy)]
pub struct NotedActivity {
    pub scheduled: u64,
    /// Whether an attempt is running.
    pub is_running: bool,
    /// Whether it was asked to cancel.
    pub is_asked: bool,
}

impl NotedActivity {
    /// The activity that this event scheduled, where this is noted of it.
    pub(crate) fn of(event: &Event, notes: &Notes) -> NotedActivity
        ensures { result ≡ noted_activity (kept_row notes.now event.now) }
    {
        NotedActivity {
            scheduled: event.id,
            is_running: notes.is_running(),
            is_asked: notes.cancel_requested,
        }
    }
}

impl Run {
    /// What is noted of the activities in use, in the order in which they were scheduled.
    pub fn noted_activities(&self, alloc: Global) -> Result<Vec<NotedActivity>, AllocError>
        ensures { IfOk result (λ noted. noted.items ≡ noted_activities self.now.state) }
    {
        noted_among(alloc, self.in_use.rows(), &self.history)
    }
}

/// What is noted of those things in use that are activities.
fn noted_among(
    alloc: Global,
    rows: &[Row],
    history: &History,
) -> Result<Vec<NotedActivity>, AllocError>
    ensures { IfOk result (λ noted. noted.items
        ≡ filter_map (activity_in history.now.lists.events) rows.now) }
{
    let mut noted = Vec::new(alloc);
    for row in rows {
        if let Some(one) = activity_in(row, history) {
            noted.push(one)?;
        }
    }
    Ok(noted)
}

/// What is noted of the thing in a row, where one is there and it is an activity.
fn activity_in(row: &Row, history: &History) -> Option<NotedActivity>
    ensures { result ≡ activity_in history.now.lists.events row.now }
{
    activity_at(row.kept.as_ref()?, history)
}

/// What is noted of a thing in use, where it is an activity.
fn activity_at(row: &Open, history: &History) -> Option<NotedActivity>
    ensures { result ≡ activity_at history.now.lists.events row.now }
{
    if !row.is_of(Class::Activity) {
        return None;
    }
    let event = history.event(row.opener.event)?;
    Some(NotedActivity::of(event, &row.notes))
}
