//! What is counted and listed of what a run shows.

ghost use Rattle.std.specs.Prelude.{◌≡◌, IfOk, filter, length, map, not};
ghost use Rattle.service_model_types.specs.declared.journal.NewEvent.{NewEvent as AnEvent};
ghost use Rattle.mutable_state.specs.Readers.{UsedRow, fired_timer};

use mutable_state::{Used, fired_timer};
use service_model_types::journal::NewEvent;
use std::alloc::{AllocError, Global};
use std::collections::VecDeque;

/// How many of what is in use are pending: no event that settles them is buffered.
pub(crate) fn count_pending(used: &[Used<'_>]) -> u64
    ensures { result ≡ length (filter (λ (row : UsedRow). not row.is_settled) used.now) }
{
    used.iter().filter(|row| !row.is_settled()).count() as u64
}

/// The timers that events fire.
pub(crate) fn fired_timers(
    alloc: Global,
    events: &VecDeque<NewEvent>,
) -> Result<Vec<Option<u64>>, AllocError>
    ensures { IfOk result (λ fired. fired.items
        ≡ map (λ (e : AnEvent). fired_timer e.attributes) events.now.items) }
{
    let mut fired = Vec::with_capacity(alloc, events.len())?;
    for place in 0..events.len() {
        fired.push(fired_timer(&events[place].attributes))?;
    }
    Ok(fired)
}
