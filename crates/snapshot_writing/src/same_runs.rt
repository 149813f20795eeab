//! Whether two runs are the same.

ghost use Rattle.std.specs.Prelude.{◌≡◌, IfOk, IsTrue};

use buffered::History;
use event_sameness::{is_same_attributes, is_same_event};
use mutable_state_keeper::{Run, TellsRun};
use service_model_types::journal::NewEvent;
use std::alloc::{AllocError, Global};

/// Whether two histories show the same events.
fn are_shown_same(one: &History, other: &History) -> bool
    ensures { IsTrue result → one.now.lists.events ≡ other.now.lists.events }
{
    let mut theirs = other.events();
    for our in one.events() {
        match theirs.next() {
            Some(their) if is_same_event(our, their) => {}
            _ => return false,
        }
    }
    theirs.next().is_none()
}

/// Whether two buffered events are the same.
fn is_same_new(one: &NewEvent, other: &NewEvent) -> bool
    ensures { IsTrue result → one.now ≡ other.now }
{
    one.at.millis() == other.at.millis() && is_same_attributes(&one.attributes, &other.attributes)
}

/// Whether two histories have the same events buffered.
fn are_held_same(one: &History, other: &History) -> bool
    ensures { IsTrue result → one.now.lists.held ≡ other.now.lists.held }
{
    let ours = one.held();
    let theirs = other.held();
    if ours.len() != theirs.len() {
        return false;
    }
    for index in 0..ours.len() {
        if !is_same_new(&ours[index], &theirs[index]) {
            return false;
        }
    }
    true
}

/// Whether two runs are the same.
pub(crate) fn is_same_run<T: TellsRun>(
    alloc: Global,
    one: &Run<T>,
    other: &Run<T>,
) -> Result<bool, AllocError>
    ensures { IfOk result (λ same. IsTrue same → one.now.state ≡ other.now.state) }
{
    let ours = one.history(alloc)?;
    let theirs = other.history(alloc)?;
    let (ours, theirs) = (ours.get(), theirs.get());
    if !are_shown_same(ours, theirs) || !are_held_same(ours, theirs) {
        return Ok(false);
    }
    Ok(one.is_same_beside_events(alloc, other)?)
}
