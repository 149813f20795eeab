//! The children that a closed run leaves.

ghost use Rattle.std.specs.Prelude.{◌≡◌, List, IfOk};
ghost use Rattle.wf_event.specs.declared.event.Event.{Event as AnEvent};
ghost use Rattle.wf_event.specs.Role.{settles};
ghost use Rattle.service_model.specs.Issued.{is_left};
ghost use Rattle.issuing.specs.Settled.{settled_child, IsSettledBy};

use event_pieces::Events;
use indexmap::IndexSet;
use std::alloc::{AllocError, Global};
use wf_event::{Attributes, Class, Event, Opener};

/// The event that asked for the child that an event settles, if it settles one.
fn settled_child(attributes: &Attributes) -> Option<u64>
    ensures { result ≡ settled_child (settles attributes.now) }
{
    match attributes.settles() {
        Some(
            Opener {
                class: Class::Child,
                event,
            },
        ) => Some(event),
        _ => None,
    }
}

/// The events that asked for the children that these events settle.
pub(crate) fn settled_children(
    alloc: Global,
    events: &Events<'_>,
) -> Result<IndexSet<u64>, AllocError>
    ensures { IfOk result (λ settled. IsSettledBy events.now settled.keys) }
{
    let mut settled = IndexSet::new(alloc);
    for event in events.again() {
        if let Some(initiated) = settled_child(&event.attributes) {
            settled.insert(initiated)?;
        }
    }
    Ok(settled)
}

/// Whether an event asks for a child that is not among those that were settled.
#[tactic(auto, unfolding(wf_event::specs::Role::opens))]
pub(crate) fn is_left(settled: &IndexSet<u64>, event: &Event) -> bool
    ensures { (events : List AnEvent) → IsSettledBy events settled.now.keys
        → result ≡ is_left events event.now }
{
    match &event.attributes {
        Attributes::StartChildWorkflowExecutionInitiated(_) => !settled.contains(&event.id),
        _ => false,
    }
}
