//! What was noted of an activity in use. The last of its notes gives its phase.

use crate::fault::SnapshotFault;
use mutable_state::Activity;
use mutable_state_keeper::KeepsRun;
use service_model_types::journal::Note;
use service_model_types::phase::ActivityPhase;
use shard_snapshot::Writing;
use snapshot_pieces::{NotePiece, Piece};
use wf_event_values::{Moment, Text};

/// So many notes that are alike.
fn add_times<T: KeepsRun>(
    lines: &mut Writing<T>,
    activity: &Activity,
    at: Moment,
    note: Note,
    times: u32,
) -> Result<(), SnapshotFault> {
    Ok(lines.write(Piece::Note(NotePiece {
        activity: activity.scheduled.id,
        at,
        note,
        times,
    }))?)
}

/// One note.
fn add_once<T: KeepsRun>(
    lines: &mut Writing<T>,
    activity: &Activity,
    at: Moment,
    note: Note,
) -> Result<(), SnapshotFault> {
    add_times(lines, activity, at, note, 1)
}

/// A note for each attempt that ended.
fn add_ends<T: KeepsRun>(lines: &mut Writing<T>, activity: &Activity) -> Result<(), SnapshotFault> {
    let notes = &activity.notes;
    match notes.ended {
        Some(at) if notes.attempt > 1 => {
            add_times(lines, activity, at, Note::Ended, notes.attempt - 1)
        }
        _ => Ok(()),
    }
}

/// That an attempt was queued again, where one was.
fn add_ready<T: KeepsRun>(
    lines: &mut Writing<T>,
    activity: &Activity,
) -> Result<(), SnapshotFault> {
    match activity.notes.ready {
        Some(at) => add_once(lines, activity, at, Note::Ready),
        None => Ok(()),
    }
}

/// That an attempt was taken at this moment, and its last heartbeat: the one that was last comes last.
fn add_taken<T: KeepsRun>(
    lines: &mut Writing<T>,
    activity: &Activity,
    taken: Moment,
    details: &Text,
) -> Result<(), SnapshotFault> {
    let beat = Note::Beat(details.clone()?);
    let sign = activity.notes.sign_of_life.unwrap_or(taken);
    if sign.millis() == taken.millis() {
        add_once(lines, activity, taken, beat)?;
        return add_once(lines, activity, taken, Note::Taken);
    }
    add_once(lines, activity, taken, Note::Taken)?;
    add_once(lines, activity, sign, beat)
}

/// That an attempt was taken, where one was, and its last heartbeat.
fn add_life<T: KeepsRun>(lines: &mut Writing<T>, activity: &Activity) -> Result<(), SnapshotFault> {
    let notes = &activity.notes;
    match (notes.taken, &notes.details) {
        (Some(taken), Some(details)) => add_taken(lines, activity, taken, details),
        (Some(taken), None) => add_once(lines, activity, taken, Note::Taken),
        (None, _) => Ok(()),
    }
}

/// What was noted of an activity, in an order that leaves its phase.
pub(crate) fn add_notes<T: KeepsRun>(
    lines: &mut Writing<T>,
    activity: &Activity,
) -> Result<(), SnapshotFault> {
    match activity.notes.phase {
        ActivityPhase::Queued => {
            add_life(lines, activity)?;
            add_ends(lines, activity)?;
            add_ready(lines, activity)
        }
        ActivityPhase::Running => {
            add_ends(lines, activity)?;
            add_ready(lines, activity)?;
            add_life(lines, activity)
        }
        ActivityPhase::Waiting => {
            add_ready(lines, activity)?;
            add_life(lines, activity)?;
            add_ends(lines, activity)
        }
    }
}
