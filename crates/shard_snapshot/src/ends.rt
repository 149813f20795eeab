//! Whether a run may come after the others.

ghost use Rattle.std.specs.Prelude.{◌≡◌, find, option_map, IfOk};
ghost use Rattle.wf_event.specs.declared.event.Event.{Event as AnEvent};
ghost use Rattle.service_model.specs.Deadlines.{is_closing_event};
ghost use Rattle.shard_snapshot.specs.Laid.{closed_at, in_order, is_by, may_end, may_follow};
ghost use Rattle.shard_store.specs.ShardView.{states};

use event_pieces::Events;
use mutable_state_keeper::{KeepsRun, Run};
use shard_store::Store;
use std::alloc::{AllocError, Global};
use wf_event_values::Moment;

/// Whether a run may come after those that a shard keeps: it closed by the last moment, if it closed, and
/// the latest of its workflow ID closed, no later.
pub(crate) fn may_end<T: KeepsRun>(
    alloc: Global,
    store: &Store<T>,
    run: &Run<T>,
) -> Result<bool, AllocError>
    ensures { IfOk result (λ may. may
        ≡ may_end store.now.last (states store.now.runs) run.now.state) }
{
    let closed = closed_at(alloc, run)?;
    if !run.is_open() && !is_by(store.last(), closed) {
        return Ok(false);
    }
    let Some(index) = store.latest(run.workflow_id()) else {
        return Ok(true);
    };
    let earlier = store.run(index);
    if earlier.is_open() {
        return Ok(false);
    }
    Ok(in_order(closed_at(alloc, earlier)?, closed))
}

/// The moment of the event that closed a run.
fn closed_at<T: KeepsRun>(alloc: Global, run: &Run<T>) -> Result<Option<Moment>, AllocError>
    ensures { IfOk result (λ at. at ≡ closed_at run.now.state) }
{
    let history = run.history(alloc)?;
    Ok(closing_moment(&history.get().events()))
}

/// The moment of the event among these that closes its run.
fn closing_moment(events: &Events<'_>) -> Option<Moment>
    ensures { result ≡ option_map (λ (e : AnEvent). e.at) (find is_closing_event events.now) }
{
    for event in events.again() {
        if event.attributes.is_closing() {
            return Some(event.at);
        }
    }
    None
}

/// Whether there is a moment, and it is no later than another.
fn is_by(last: Moment, at: Option<Moment>) -> bool
    ensures { result ≡ is_by last at }
{
    match at {
        Some(at) => at.millis() <= last.millis(),
        None => false,
    }
}

/// Whether one is no later than another, where both are.
fn in_order(one: Option<Moment>, other: Option<Moment>) -> bool
    ensures { result ≡ in_order one other }
{
    match (one, other) {
        (Some(one), Some(other)) => one.millis() <= other.millis(),
        _ => true,
    }
}
