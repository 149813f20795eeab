//! Questions about what is in use, about the notes on it, and about what is buffered.

ghost use Rattle.std.specs.Prelude.{◌≡◌, ◌==◌, find};
ghost use Rattle.task_completion.specs.Judging.{event_named, is_firing_of, pending_rows, note_on, has_row, has_pending_row};

use mutable_state::{NotedActivity, Used};
use wf_event_values::Id;

/// The first row under a worker's id, by its event.
pub fn event_named(rows: &[Used], name: &Id) -> Option<u64>
    ensures { result ≡ event_named name.now rows.now }
{
    let row = rows.iter().find(|row| row.is_named(name))?;
    Some(row.event())
}

/// Whether an event that fires this fires the timer that was started by that event.
pub fn is_firing_of(fired: &Option<u64>, started: u64) -> bool
    ensures { result ≡ is_firing_of started fired.now }
{
    match fired {
        Some(fired) => started == *fired,
        None => false,
    }
}

/// How many of the rows are pending.
pub fn count_pending(rows: &[Used]) -> usize
    ensures { result ≡ pending_rows rows.now }
{
    rows.iter().filter(|row| !row.is_settled()).count()
}

/// Whether the activity that this event scheduled is in use.
pub fn has_row(rows: &[Used], scheduled: u64) -> bool
    ensures { result ≡ has_row scheduled rows.now }
{
    rows.iter().any(|row| row.event() == scheduled)
}

/// Whether it is pending.
pub fn has_pending_row(rows: &[Used], scheduled: u64) -> bool
    ensures { result ≡ has_pending_row scheduled rows.now }
{
    rows.iter()
        .any(|row| row.event() == scheduled && !row.is_settled())
}

/// What the notes on the activity say that this event scheduled.
fn notes_on(notes: &[NotedActivity], scheduled: u64) -> Option<NotedActivity>
    ensures { result ≡ find (λ (n : NotedActivity). n.scheduled == scheduled) notes.now }
{
    notes
        .iter()
        .copied()
        .find(|notes| notes.scheduled == scheduled)
}

/// Whether an attempt of the activity is running.
pub fn is_running(notes: &[NotedActivity], scheduled: u64) -> bool
    ensures { result ≡ note_on (λ n. n.is_running) scheduled notes.now }
{
    match notes_on(notes, scheduled) {
        Some(notes) => notes.is_running,
        None => false,
    }
}

/// Whether the activity was asked to cancel before these commands.
pub fn was_asked(notes: &[NotedActivity], scheduled: u64) -> bool
    ensures { result ≡ note_on (λ n. n.is_asked) scheduled notes.now }
{
    match notes_on(notes, scheduled) {
        Some(notes) => notes.is_asked,
        None => false,
    }
}
