//! The lines of a run: its history, what was noted of activities in use, and what is buffered.

use crate::fault::SnapshotFault;
use crate::notes::add_notes;
use buffered::History;
use mutable_state_keeper::{KeepsRun, Run, TellsRun};
use service_model_types::journal::{CancelRequest, NewEvent};
use shard_snapshot::Writing;
use snapshot_pieces::Piece;
use std::alloc::{AllocError, Global};
use wf_event::{Attributes, Event};
use wf_event_values::{Field, Id, Refusal};

/// The request ids of a run that were not told yet.
#[derive(Drop)]
struct Requests<'a> {
    start: Option<&'a Id>,
    /// Those of its signals. Which signal bore which is known of none, so they are told in order.
    signals: &'a [String],
    /// How many of these were told.
    told: usize,
    cancel: Option<CancelRequest>,
}

impl Requests<'_> {
    /// The request id of the next signal.
    fn of_signal(&mut self, alloc: Global) -> Result<Option<Id>, AllocError> {
        let Some(text) = self.signals.get(self.told) else {
            return Ok(None);
        };
        self.told = self.told.saturating_add(1);
        match Id::new(alloc, Field::RequestId, text.as_str()) {
            Ok(id) => Ok(Some(id)),
            Err(Refusal::NoMemory) => Err(AllocError),
            Err(_) => Ok(None),
        }
    }

    /// That of the request to cancel.
    fn of_cancel(&self) -> Result<Option<Id>, AllocError> {
        match &self.cancel {
            Some(
                CancelRequest {
                    by_whom: _,
                    request_id: Some(id),
                },
            ) => Ok(Some(id.clone()?)),
            _ => Ok(None),
        }
    }

    /// That of an event, where it has one.
    fn of(&mut self, alloc: Global, attributes: &Attributes) -> Result<Option<Id>, AllocError> {
        match attributes {
            Attributes::WorkflowExecutionStarted(_) => match self.start {
                Some(id) => Ok(Some(id.clone()?)),
                None => Ok(None),
            },
            Attributes::WorkflowExecutionSignaled(_) => self.of_signal(alloc),
            Attributes::WorkflowExecutionCancelRequested(_) => self.of_cancel(),
            _ => Ok(None),
        }
    }
}

/// An event, after the request id that made it.
fn add_event<T: KeepsRun>(
    lines: &mut Writing<T>,
    requests: &mut Requests<'_>,
    event: &Event,
) -> Result<(), SnapshotFault> {
    if let Some(id) = requests.of(lines.alloc(), &event.attributes)? {
        lines.write(Piece::Request(id))?;
    }
    Ok(lines.write_event(event)?)
}

/// The events of a history.
fn add_shown<T: KeepsRun>(
    lines: &mut Writing<T>,
    requests: &mut Requests<'_>,
    history: &History,
) -> Result<(), SnapshotFault> {
    for event in history.events() {
        add_event(lines, requests, event)?;
    }
    Ok(())
}

/// A buffered event, under the number that it would have next.
fn numbered(id: u64, event: &NewEvent) -> Result<Event, AllocError> {
    Ok(Event {
        id,
        at: event.at,
        attributes: event.attributes.clone()?,
    })
}

/// The buffered events, numbered on from the history.
fn add_held<T: KeepsRun>(
    lines: &mut Writing<T>,
    requests: &mut Requests<'_>,
    history: &History,
) -> Result<(), SnapshotFault> {
    let mut id = history.count() as u64;
    for event in history.held().iter() {
        id = id.saturating_add(1);
        add_event(lines, requests, &numbered(id, event)?)?;
    }
    Ok(())
}

/// What was noted of the activities in use.
fn add_activities<T: TellsRun>(lines: &mut Writing<T>, run: &Run<T>) -> Result<(), SnapshotFault> {
    for activity in run.activities(lines.alloc())? {
        add_notes(lines, &activity)?;
    }
    Ok(())
}

/// The lines of a run.
pub(crate) fn add_run<T: TellsRun>(
    lines: &mut Writing<T>,
    run: &Run<T>,
) -> Result<(), SnapshotFault> {
    let kept = run.history(lines.alloc())?;
    let history = kept.get();
    let mut requests = Requests {
        start: run.start_request(),
        signals: run.signal_requests(),
        told: 0,
        cancel: run.cancel_request()?,
    };
    add_shown(lines, &mut requests, history)?;
    add_activities(lines, run)?;
    add_held(lines, &mut requests, history)
}
