//! The transfers of a run.
//!
//! Rules: X1.

ghost use Rattle.std.specs.Prelude.{◌≡◌, ◌<◌, IfOk};
ghost use Rattle.issuing.specs.Behind.{closings_behind, transfers_behind};

use crate::closings::{closed_transfers, left_transfers};
use crate::requests::requests_of;
use event_pieces::Events;
use service_model_types::content::Setup;
use service_model_types::transfer::Sent;
use std::alloc::{AllocError, Global};
use wf_event::payloads::Parent;
use wf_event_values::RunId;

/// What a run sends as it closes by the last of these events, of which those that are later are new.
fn closings_of(
    alloc: Global,
    setup: &Setup,
    run: RunId,
    parent: &Option<Parent>,
    events: &Events<'_>,
    later: &Events<'_>,
) -> Result<Vec<Sent>, AllocError>
    requires { 0 < setup.now.shards }
    ensures { IfOk result (λ found. found.items
        ≡ closings_behind setup.now run parent.now events.now later.now) }
{
    let mut found = left_transfers(alloc, setup, run, events)?;
    let Some(parent) = parent else {
        return Ok(found);
    };
    let mut closed = closed_transfers(alloc, run, parent, later)?;
    found.append(&mut closed)?;
    Ok(found)
}

/// The transfers that a run issues by the later ones of its events, where it is open or has closed by
/// them. A child has a parent.
pub fn transfers_behind(
    alloc: Global,
    setup: &Setup,
    run: RunId,
    is_open: bool,
    parent: &Option<Parent>,
    events: &Events<'_>,
    later: &Events<'_>,
) -> Result<Vec<Sent>, AllocError>
    requires { 0 < setup.now.shards }
    ensures { IfOk result (λ found. found.items
        ≡ transfers_behind setup.now run is_open parent.now events.now later.now) }
{
    let mut found = requests_of(alloc, setup, run, later)?;
    if is_open {
        return Ok(found);
    }
    let mut closings = closings_of(alloc, setup, run, parent, events, later)?;
    found.append(&mut closings)?;
    Ok(found)
}
