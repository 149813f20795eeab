//! All that is known of a run, for who makes it again elsewhere.

ghost use Rattle.std.specs.Prelude.{◌≡◌, filter_map, map, option_map, IfOk};
ghost use Rattle.mutable_state.specs.Activities.{row_said};
ghost use Rattle.mutable_state.specs.Opens.{row_at};
ghost use Rattle.mutable_state.specs.RunView.{texts};
ghost use Rattle.mutable_state.specs.Whole.{activity_row_in};

use crate::activity::Activity;
use crate::open::Open;
use crate::rows::Row;
use crate::run::Run;
use buffered::History;
use std::alloc::{AllocError, Global};
use wf_event::Class;

impl Run {
    /// The request ids of its signals, in their order.
    pub fn signal_requests(&self) -> &[String]
        ensures { texts result.now ≡ self.now.state.signal_requests }
    {
        self.requests.signals()
    }

    /// Copies of the activities in use, in the order in which they were scheduled: also of those whose
    /// end is buffered.
    ///
    /// # Errors
    /// Where memory was refused.
    pub fn activities(&self, alloc: Global) -> Result<Vec<Activity>, AllocError>
        ensures { IfOk result (λ found. map row_said found.items ≡ self.now.state.activities) }
    {
        activities_among(alloc, self.in_use.rows(), &self.history)
    }
}

/// Copies of those things in use that are activities.
fn activities_among(
    alloc: Global,
    rows: &[Row],
    history: &History,
) -> Result<Vec<Activity>, AllocError>
    ensures { IfOk result (λ found. map row_said found.items
        ≡ filter_map (activity_row_in history.now.lists.events) rows.now) }
{
    let mut found = Vec::new(alloc);
    for row in rows {
        if let Some(one) = activity_in(row, history)? {
            found.push(one)?;
        }
    }
    Ok(found)
}

/// A copy of the thing in a row, where one is there and it is an activity.
fn activity_in(row: &Row, history: &History) -> Result<Option<Activity>, AllocError>
    ensures { IfOk result (λ found. option_map row_said found
        ≡ activity_row_in history.now.lists.events row.now) }
{
    match &row.kept {
        Some(open) => activity_at(open, history),
        None => Ok(None),
    }
}

/// A copy of a thing in use, where it is an activity.
fn activity_at(open: &Open, history: &History) -> Result<Option<Activity>, AllocError>
    ensures { IfOk result (λ found. option_map row_said found
        ≡ row_at history.now.lists.events open.now) }
{
    if !open.is_of(Class::Activity) {
        return Ok(None);
    }
    let Some(event) = history.event(open.opener.event) else {
        return Ok(None);
    };
    Ok(Some(Activity {
        scheduled: event.clone()?,
        notes: open.notes.copy()?,
    }))
}
